//! The readers of the five files.

use crate::refusals::turns::{AllocatingCall, Refusal, answered, refuse_in_turn};
use crate::workspace::{ACCOUNT, CHOICE, LISTINGS, RECORD, TABLE};
use std::alloc::Global;
use test_select::{ReadError, read_account, read_choice, read_listings, read_record, read_table};

#[derive(Clone, Copy)]
enum Kind {
    Record,
    Choice,
    Table,
    Account,
    Listings,
}

/// Reads a file, and tells how much it holds: packages, extras, answers, rules or binaries.
#[derive(Drop)]
struct Reads<'a> {
    kind: Kind,
    bytes: &'a [u8],
}

impl AllocatingCall for Reads<'_> {
    fn answer(&mut self, alloc: Global) -> Result<String, Refusal> {
        let bytes = self.bytes;
        let read = match self.kind {
            Kind::Record => read_record(alloc, bytes).map(|r| r.packages.len()),
            Kind::Choice => read_choice(alloc, bytes).map(|c| c.extras.len()),
            Kind::Table => read_table(alloc, bytes).map(|t| t.answers.len()),
            Kind::Account => read_account(alloc, bytes).map(|a| a.rules.len()),
            Kind::Listings => read_listings(alloc, bytes).map(|l| l.len()),
        };
        let count = answered(read, ReadError::Memory)?;
        Ok(format!(in alloc; "{count}")?)
    }
}

const FILES: [(Kind, &[u8], &str); 5] = [
    (Kind::Record, RECORD, "2"),
    (Kind::Choice, CHOICE, "2"),
    (Kind::Table, TABLE, "1"),
    (Kind::Account, ACCOUNT, "6"),
    (Kind::Listings, LISTINGS, "4"),
];

#[test]
fn files(rt: HostRuntime) {
    for (kind, bytes, wanted) in FILES {
        refuse_in_turn(&rt, rt.alloc(), &mut Reads { kind, bytes }, wanted);
    }
}
