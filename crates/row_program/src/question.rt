//! The questions that rows ask.

use crate::fault::RowFault;
use crate::reading::{choice_in, record_in, table_in};
use crate::row::Row;
use std::alloc::Global;
use workspace_record::{FeatureChoice, PlatformTable, WorkspaceRecord};

/// What features are asked of: a record, a choice and a table.
#[derive(Clone, Copy)]
pub struct Question<'a> {
    pub record: &'a WorkspaceRecord,
    pub choice: &'a FeatureChoice,
    pub table: &'a PlatformTable,
}

/// The record, the choice and the table of a row.
pub struct RowQuestion {
    record: WorkspaceRecord,
    choice: FeatureChoice,
    table: PlatformTable,
}

impl RowQuestion {
    /// The same, lent.
    pub fn lent(&self) -> Question<'_> {
        Question {
            record: &self.record,
            choice: &self.choice,
            table: &self.table,
        }
    }
}

// Written out, so that a function that lets one go takes one step.
impl Drop for RowQuestion {
    fn drop(self) {
        let RowQuestion {
            record: _,
            choice: _,
            table: _,
        } = self;
    }
}

/// The question of the files `record.json`, `choice.json` and `table.json` of a row.
pub fn question_in(alloc: Global, row: Row<'_>) -> Result<RowQuestion, RowFault> {
    let choice = choice_in(alloc, row)?;
    let table = table_in(alloc, row)?;
    let record = record_in(alloc, row, "record.json")?;
    Ok(RowQuestion {
        record,
        choice,
        table,
    })
}
