//! What a selection answers and asks, as texts.

use row_program::{Answers, Question, Row, RowFault, listings_in};
use std::alloc::Global;
use test_select::{
    FileLister, LinkScope, SelectError, Selection, select, select_plain, write_report,
};

/// Selects in the scope, and tells the report or what is refused, the ids that were asked and how many
/// calls failed.
pub(crate) fn tell_selection(
    alloc: Global,
    row: Row<'_>,
    question: Question<'_>,
    scope: LinkScope,
    answers: &mut Answers,
) -> Result<(), RowFault> {
    let plain = row.get("plain").is_some();
    let texts = row.texts(alloc, "texts")?;
    let mut lister = FileLister::new(alloc, listings_in(alloc, row)?)?;
    match selected(alloc, question, scope, plain, &texts, &mut lister) {
        Ok(selection) => tell_report(alloc, &selection, answers),
        Err(error) => {
            answers.show("report", &"refused");
            answers.show("refused", &error);
        }
    }
    answers.words("asked", lister.asked());
    answers.show("failures", &lister.failures());
    Ok(())
}

fn selected(
    alloc: Global,
    question: Question<'_>,
    scope: LinkScope,
    plain: bool,
    texts: &[&str],
    lister: &mut FileLister,
) -> Result<Selection, SelectError> {
    let Question {
        record,
        choice,
        table,
    } = question;
    if plain {
        return select_plain(alloc, record, choice, table, scope, texts, lister);
    }
    select(alloc, record, choice, table, scope, texts, lister)
}

/// Tells the report that is written, the chosen tests, which are to be the same lines, and that the
/// ids which the selection keeps are those that the lister was asked.
fn tell_report(alloc: Global, selection: &Selection, answers: &mut Answers) {
    answers.show("refused", &"");
    answers.words("asked", selection.asked());
    answers.begin("report");
    for (id, name) in selection.chosen() {
        answers.add(id);
        answers.add(&" ");
        answers.add(name);
        answers.add(&"\n");
    }
    let mut written = Vec::new(alloc);
    let is_written = write_report(selection, &mut written).is_ok();
    answers.written("report", written, is_written);
}
