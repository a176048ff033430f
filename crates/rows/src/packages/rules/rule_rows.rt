//! Rows of the rules that a record keeps.

use crate::packages::rules::path_rows::tell_paths;
use guppy_package_rules::{PackageGraphError, read_rows};
use row_program::{Answers, Row, RowFault, RowRunner, record_from};
use std::alloc::Global;
use test_select_checks::{RecordError, check_record};
use workspace_record::WorkspaceRecord;

/// Rows of paths, or of a record in its parts, whose first broken rule is looked for.
#[derive(Drop)]
pub(crate) struct RuleRows;

impl RowRunner for RuleRows {
    fn inputs(&self) -> &'static [&'static str] {
        &["packages", "links", "workspace", "paths"]
    }

    fn run_row(
        &mut self,
        alloc: Global,
        row: Row<'_>,
        answers: &mut Answers,
    ) -> Result<(), RowFault> {
        if row.get("paths").is_some() {
            tell_paths(&row.texts(alloc, "paths")?, answers);
            return Ok(());
        }
        let record = record_of(alloc, row)?;
        tell_broken(alloc, &record, answers)
    }
}

fn record_of(alloc: Global, row: Row<'_>) -> Result<WorkspaceRecord, RowFault> {
    let packages = row.printed(alloc, "packages")?;
    let links = row.printed(alloc, "links")?;
    let workspace = row.printed(alloc, "workspace")?;
    let text = format!(in alloc;
        "{{\"packages\":{packages},\"links\":{links},\"workspace\":{workspace}}}"
    )?;
    record_from(alloc, text.as_str(), "record")
}

/// The first broken rule of the packages, links and members, and what the check of the whole record says of
/// it: the same rule, where one of these is broken.
fn tell_broken(
    alloc: Global,
    record: &WorkspaceRecord,
    answers: &mut Answers,
) -> Result<(), RowFault> {
    match read_rows(alloc, &record.packages, &record.links, &record.workspace) {
        Err(PackageGraphError::Broken { rule, place }) => {
            answers.show("broken", &rule);
            answers.part(" at ", &place);
        }
        Err(PackageGraphError::Memory) => return Err(RowFault::Memory),
        Ok(_) => answers.show("broken", &"none"),
    }
    match check_record(alloc, record) {
        Err(RecordError::Broken { rule, place }) => {
            answers.show("broken", &rule);
            answers.part(" at ", &place);
        }
        Err(RecordError::Memory) => return Err(RowFault::Memory),
        _ => answers.show("broken", &"none"),
    }
    Ok(())
}
