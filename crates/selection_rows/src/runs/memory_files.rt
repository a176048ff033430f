//! Files of a row.

use row_program::{Row, file_text};
use std::alloc::Global;
use test_select::{FileFault, FileSource};

/// The files of a row. At one that stands as null memory runs out.
#[derive(Drop)]
pub(crate) struct MemoryFiles<'a> {
    pub(crate) row: Row<'a>,
    /// The names that were asked for, in order, with a space after each.
    pub(crate) asked: String,
}

impl FileSource for MemoryFiles<'_> {
    ghost use Rattle.std.specs.Prelude.{[]};

    ghost state = { λ _. [] };

    ghost answers = { λ _ _ _ _ _. Unit {0} };

    fn read(&mut self, alloc: Global, name: &str) -> Result<Vec<u8>, FileFault> {
        if self.asked.push_str(name).is_err() || self.asked.push(' ').is_err() {
            return Err(FileFault::Memory);
        }
        match self.row.file_value(name) {
            None => Err(FileFault::CannotRead),
            Some(value) if value.is_null() => Err(FileFault::Memory),
            Some(value) => match file_text(alloc, value) {
                Ok(text) => Ok(text.into_bytes()),
                Err(_) => Err(FileFault::Memory),
            },
        }
    }
}
