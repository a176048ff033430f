//! Rules and accounts over the records, choices and tables of `accounts.json`, compared with the lists
//! and verdicts that were worked out by hand.

mod account_rows;
mod rule_texts;
mod switching;

pub(crate) use crate::features::accounts::account_rows::AccountRows;
