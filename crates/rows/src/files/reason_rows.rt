//! Rows of reasons, for people.

use feature_account_making::{
    SourcedRule, account, explanation, on_features, sourced_rules, write_entries, write_features,
    write_rules,
};
use record_files::label_of;
use row_program::{Answers, Row, RowFault, RowRunner, account_in, choice_in, record_in, table_in};
use std::alloc::Global;
use std::rc::Rc;
use test_select_files::{FeatureQuestion, verdict_line, verdict_on};
use workspace_record::Feature;

/// Rows of what is on, by which rules and why, as lines. A row's `files` are `record.json`, and where it
/// has them `choice.json`, `table.json` and `account.json`; its `account` is a list of numbers, and its
/// `asked` a package and a feature. What comes is `features`, `rules` and `entries`, the lines of what is
/// on, of the rules and of the account; `explained`, those of why the asked feature is on; and `verdict`,
/// the line on the account or explanation of the row.
#[derive(Drop)]
pub(crate) struct ReasonRows;

impl RowRunner for ReasonRows {
    fn inputs(&self) -> &'static [&'static str] {
        &["files", "account", "asked"]
    }

    fn run_row(
        &mut self,
        alloc: Global,
        row: Row<'_>,
        answers: &mut Answers,
    ) -> Result<(), RowFault> {
        let choice = choice_in(alloc, row)?;
        let table = table_in(alloc, row)?;
        let record = Rc::new(alloc, record_in(alloc, row, "record.json")?)?;
        let question = FeatureQuestion {
            record,
            choice,
            table,
        };
        tell_question(alloc, row, &question, answers)
    }
}

fn tell_question(
    alloc: Global,
    row: Row<'_>,
    question: &FeatureQuestion,
    answers: &mut Answers,
) -> Result<(), RowFault> {
    let judged = account_in(alloc, row)?;
    let verdict = verdict_on(alloc, question, &judged)?;
    answers.keep("verdict", verdict_line(alloc, verdict));
    let record = question.record.as_ref();
    let on = on_features(alloc, record, &question.choice, &question.table)?;
    let mut bytes = Vec::new(alloc);
    let is_written = write_features(alloc, on.as_slice(), &mut bytes).is_ok();
    answers.written("features", bytes, is_written);
    tell_rules(alloc, row, question, answers)
}

fn tell_rules(
    alloc: Global,
    row: Row<'_>,
    question: &FeatureQuestion,
    answers: &mut Answers,
) -> Result<(), RowFault> {
    let record = question.record.as_ref();
    let (choice, table) = (&question.choice, &question.table);
    let asked = asked_feature(alloc, row)?;
    let entries = account(alloc, record, choice, table)?;
    let explained = explanation(alloc, record, choice, table, &asked)?;
    let rules = sourced_rules(alloc, record, choice, table)?;
    let mut bytes = Vec::new(alloc);
    let is_written = write_rules(alloc, &rules, &mut bytes).is_ok();
    answers.written("rules", bytes, is_written);
    tell_entries(alloc, "entries", &rules, &entries, answers);
    match explained {
        Some(entries) => tell_entries(alloc, "explained", &rules, &entries, answers),
        None => answers.show("explained", &"not on"),
    }
    Ok(())
}

fn tell_entries(
    alloc: Global,
    key: &'static str,
    rules: &[SourcedRule<'_>],
    entries: &[usize],
    answers: &mut Answers,
) {
    let mut bytes = Vec::new(alloc);
    let is_written = write_entries(alloc, rules, entries, &mut bytes).is_ok();
    answers.written(key, bytes, is_written);
}

/// The feature that the row asks about: its package, and its text in a choice.
fn asked_feature(alloc: Global, row: Row<'_>) -> Result<Feature, RowFault> {
    let words = row.texts(alloc, "asked")?;
    let (package, text) = match words.as_slice() {
        [package, text] => (*package, *text),
        _ => ("", ""),
    };
    let package = String::from_str(alloc, package)?;
    let label = label_of(alloc, text)?;
    Ok(Feature { package, label })
}
