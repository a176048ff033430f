//! What rows bring, read.

use crate::fault::RowFault;
use crate::row::Row;
use record_files::{
    AccountFile, ReadError, read_account, read_choice, read_listings, read_record, read_table,
};
use std::alloc::{AllocError, Global};
use std::collections::BTreeMap;
use workspace_record::{FeatureChoice, PlatformTable, WorkspaceRecord};

/// The record that stands under `record`.
pub fn record_under(alloc: Global, row: Row<'_>) -> Result<WorkspaceRecord, RowFault> {
    let text = row.printed(alloc, "record")?;
    record_from(alloc, text.as_str(), "record")
}

/// The record in the file with this name.
pub fn record_in(alloc: Global, row: Row<'_>, name: &str) -> Result<WorkspaceRecord, RowFault> {
    let text = file_or_empty(alloc, row, name)?;
    record_from(alloc, text.as_str(), name)
}

/// The record that the text of this name is.
pub fn record_from(alloc: Global, text: &str, name: &str) -> Result<WorkspaceRecord, RowFault> {
    match read_record(alloc, text.as_bytes()) {
        Ok(record) => Ok(record),
        Err(error) => Err(unread(alloc, name, error)),
    }
}

/// The choice of the row, without a file that of the default features.
pub fn choice_in(alloc: Global, row: Row<'_>) -> Result<FeatureChoice, RowFault> {
    let text = file_or_empty(alloc, row, "choice.json")?;
    match read_choice(alloc, text.as_bytes()) {
        Ok(choice) => Ok(choice),
        Err(error) => Err(unread(alloc, "choice.json", error)),
    }
}

/// The table of the row, without a file one that has no answers and lets unknown ones count.
pub fn table_in(alloc: Global, row: Row<'_>) -> Result<PlatformTable, RowFault> {
    let text = file_or_empty(alloc, row, "table.json")?;
    match read_table(alloc, text.as_bytes()) {
        Ok(table) => Ok(table),
        Err(error) => Err(unread(alloc, "table.json", error)),
    }
}

/// The account or explanation of the row: of its file, or else the numbers of its `account`.
pub fn account_in(alloc: Global, row: Row<'_>) -> Result<AccountFile, RowFault> {
    let Some(text) = row.file(alloc, "account.json")? else {
        let rules = row.numbers(alloc, "account")?;
        return Ok(AccountFile { rules, goal: None });
    };
    match read_account(alloc, text.as_bytes()) {
        Ok(account) => Ok(account),
        Err(error) => Err(unread(alloc, "account.json", error)),
    }
}

/// The listings of the row; without a file there are none.
pub fn listings_in(alloc: Global, row: Row<'_>) -> Result<BTreeMap<String, Vec<String>>, RowFault> {
    let text = file_or_empty(alloc, row, "listings.json")?;
    match read_listings(alloc, text.as_bytes()) {
        Ok(listings) => Ok(listings),
        Err(error) => Err(unread(alloc, "listings.json", error)),
    }
}

fn file_or_empty(alloc: Global, row: Row<'_>, name: &str) -> Result<String, AllocError> {
    match row.file(alloc, name)? {
        Some(text) => Ok(text),
        None => String::from_str(alloc, "{}"),
    }
}

fn unread(alloc: Global, name: &str, error: ReadError) -> RowFault {
    match format!(in alloc; "{name}: {error}") {
        Ok(text) => RowFault::Refused(text),
        Err(_) => RowFault::Memory,
    }
}
