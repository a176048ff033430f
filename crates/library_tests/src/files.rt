//! The files of the runs.

use crate::workspace::{ACCOUNT, CHOICE, LISTINGS, RECORD, TABLE};
use std::alloc::Global;
use test_select::{FileFault, FileSource};

/// A record, a choice, a table, listings and an account, each under its name.
#[derive(Drop)]
pub(crate) struct Files;

impl FileSource for Files {
    ghost use Rattle.std.specs.Prelude.{[]};

    ghost state = { λ _. [] };

    ghost answers = { λ _ _ _ _ _. Unit {0} };

    fn read(&mut self, alloc: Global, name: &str) -> Result<Vec<u8>, FileFault> {
        let bytes = match name {
            "record.json" => RECORD,
            "choice.json" => CHOICE,
            "table.json" => TABLE,
            "listings.json" => LISTINGS,
            "account.json" => ACCOUNT,
            _ => return Err(FileFault::CannotRead),
        };
        bytes.to_vec(alloc).map_err(|_| FileFault::Memory)
    }
}
