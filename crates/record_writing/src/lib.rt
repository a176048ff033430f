//! Records, choices, tables and listings, written as the files that `record_files` reads.
//!
//! Begin with `specs/Files.antt`, then `record.rt` and `listings.rt`. What is written is public as far
//! as it reads back; how an object is built is private.
#![tactic(auto)]

mod choice;
mod link;
mod listings;
mod object;
mod package;
mod record;
mod table;
mod target;
mod workspace;

pub use crate::choice::choice_text;
pub use crate::listings::{listings_line, listings_text};
pub use crate::record::record_text;
pub use crate::table::table_text;
