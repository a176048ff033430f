//! Rows of parts of filter texts.

use crate::filters::spans::add_span;
use nextest_filter_tokens::{
    FaultList, and_operator, escape_after, head_of, or_operator, pattern_from, skip_blanks,
    text_from,
};
use row_program::{Answers, Row, RowFault, RowRunner};
use std::alloc::Global;
use std::fmt::Display;

/// Rows of one text each, of which a part is read from its beginning on.
#[derive(Drop)]
pub(crate) struct PlaceRows;

impl RowRunner for PlaceRows {
    fn inputs(&self) -> &'static [&'static str] {
        &["text", "part"]
    }

    fn run_row(
        &mut self,
        alloc: Global,
        row: Row<'_>,
        answers: &mut Answers,
    ) -> Result<(), RowFault> {
        let text = row.text("text")?;
        match row.text("part")? {
            "head" => answers.keep("came", format!(in alloc; "{:?}", head_of(text, 0))),
            "or" => answers.keep("came", format!(in alloc; "{:?}", or_operator(text, 0))),
            "and" => answers.keep("came", format!(in alloc; "{:?}", and_operator(text, 0))),
            "blanks" => answers.show("came", &skip_blanks(text, 0)),
            "escape" => answers.keep("came", format!(in alloc; "{:?}", escape_after(text, 0))),
            "text" => tell_text(alloc, text, answers),
            "pattern" => tell_pattern(alloc, text, answers),
            _ => return Err(RowFault::Key("part")),
        }
        Ok(())
    }
}

/// Tells the text that is read, the place where it ends, and its faults.
fn tell_text(alloc: Global, text: &str, answers: &mut Answers) {
    let mut faults = FaultList::new(alloc);
    match text_from(alloc, text, 0, &mut faults) {
        Ok((value, end)) => match value {
            Some(value) => tell_came(&value, end, answers),
            None => tell_came(&"spoiled", end, answers),
        },
        Err(refused) => answers.keep("came", Err(refused)),
    }
    for fault in &faults.list {
        answers.part("; ", fault);
        answers.add(&" ");
        add_span(fault.span(), answers);
    }
}

fn tell_pattern(alloc: Global, text: &str, answers: &mut Answers) {
    match pattern_from(alloc, text, 0) {
        Ok(Some((pattern, end))) => tell_came(&pattern, end, answers),
        Ok(None) => answers.show("came", &"open"),
        Err(refused) => answers.keep("came", Err(refused)),
    }
}

/// Tells what is read, and the place where it ends.
fn tell_came<T: Display>(came: &T, end: usize, answers: &mut Answers) {
    answers.show("came", came);
    answers.add(&" up to ");
    answers.add(&end);
}
