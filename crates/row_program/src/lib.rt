//! What the program of rows stands on: rows read from a file, each run, and what differs told.
//!
//! A file of rows is a JSON list. A row is an object with a `name`, what it is run on, and what is
//! expected. An object with a list `rows` is a group: each of its rows says what the group says, but
//! for what it says itself.
//!
//! Where rows speak of workspaces, what they are run on are records, choices, tables, accounts and
//! listings, read from the row and refused with the fault of the reader; and features, as rows tell them.
//!
//! Begin with `running.rt`.

#![tactic(auto)]

mod answer;
mod fault;
mod features;
mod question;
mod reading;
mod report;
mod row;
mod running;

pub use crate::answer::Answers;
pub use crate::fault::RowFault;
pub use crate::features::add_feature;
pub use crate::question::{Question, RowQuestion, question_in};
pub use crate::reading::{
    account_in, choice_in, listings_in, record_from, record_in, record_under, table_in,
};
pub use crate::row::{Row, file_text};
pub use crate::running::{RowRunner, run_file};
