//! The files of a workspace: its record, a choice of features, a table of a platform, an account and
//! listings of tests. Each is JSON, and is read whole or refused with the first fault;
//! `docs/FORMATS.md` has their keys.
//!
//! A file is a tree of `json` that lends its texts. Contracts see it as the data that `serde_json`
//! would make of it (`seen`, `specs/Trees.antt`), of which the formats speak; what the two trees
//! have to do with each other is in `proofs/Trees.antt` alone.
//!
//! Begin with `specs/Files.antt`, then `record.rt`. How a value is gone through is private. The keys,
//! the shapes and which fault comes first are public, and the checker's program stands on no more than
//! this and the rules: keep it lean.

#![tactic(auto)]

mod account;
mod account_file;
mod choice;
mod details;
mod edition;
mod error;
mod field;
mod file;
mod key;
mod lent;
mod link;
mod listings;
mod metadata;
mod number;
mod object;
mod package;
mod record;
mod table;
mod target;
mod workspace;

pub use crate::account::read_account;
pub use crate::account_file::AccountFile;
pub use crate::choice::{label_of, read_choice};
pub use crate::error::ReadError;
pub use crate::field::Field;
pub use crate::key::Key;
pub use crate::listings::read_listings;
pub use crate::record::read_record;
pub use crate::table::read_table;
