//! Rows of selections.

use crate::selections::binaries::tell_binaries;
use crate::selections::selecting::tell_selection;
use crate::selections::switching::tell_switching;
use row_program::{Answers, Question, Row, RowFault, RowRunner, question_in};
use std::alloc::Global;
use test_select::{LinkScope, check_record};

/// Rows of selections. A row's `files` are `record.json`, and where it has them `choice.json`,
/// `table.json`, `listings.json` and `switched.json`, and its `texts` the filter texts; where it has
/// `plain`, each available binary is asked for. What comes, in one `scope` or else in both, is
/// - `report`, the lines of the report; `refused`, the error; `asked`, the ids that were asked; and
///   `failures`, the lister's count;
/// - `checked`, where it is wanted, the rule that the record breaks, or `none`;
/// - `binaries`, a line for each test binary;
/// - `on`, the features that are on, or the error; and which `links` and `targets` of the record
///   `switched.json` they switch on.
#[derive(Drop)]
pub(crate) struct SelectionRows;

impl RowRunner for SelectionRows {
    fn inputs(&self) -> &'static [&'static str] {
        &["files", "texts", "scope", "plain"]
    }

    fn run_row(
        &mut self,
        alloc: Global,
        row: Row<'_>,
        answers: &mut Answers,
    ) -> Result<(), RowFault> {
        let question = question_in(alloc, row)?;
        tell_question(alloc, row, question.lent(), answers)
    }
}

fn tell_question(
    alloc: Global,
    row: Row<'_>,
    question: Question<'_>,
    answers: &mut Answers,
) -> Result<(), RowFault> {
    if row.get("checked").is_some() {
        match check_record(alloc, question.record) {
            Ok(()) => answers.show("checked", &"none"),
            Err(error) => answers.show("checked", &error),
        }
    }
    tell_binaries(alloc, question.record, answers);
    tell_switching(alloc, row, question, answers)?;
    for scope in scopes_of(row)? {
        tell_selection(alloc, row, question, *scope, answers)?;
    }
    Ok(())
}

/// The scopes in which the row selects.
fn scopes_of(row: Row<'_>) -> Result<&'static [LinkScope], RowFault> {
    if row.get("scope").is_none() {
        return Ok(&[LinkScope::SwitchedOn, LinkScope::Declared]);
    }
    match row.text("scope")? {
        "switched on" => Ok(&[LinkScope::SwitchedOn]),
        "declared" => Ok(&[LinkScope::Declared]),
        _ => Err(RowFault::Key("scope")),
    }
}
