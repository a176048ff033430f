//! Rows of the program.

use crate::runs::memory_files::MemoryFiles;
use row_program::{Answers, Row, RowFault, RowRunner};
use std::alloc::Global;
use test_select::run;

/// Rows of the program: `files` and `words`, of which the program's name is the first, and what comes
/// of them, `status`, `stdout`, `stderr` and `read`, the names of the files that were read. A row with a
/// `chain` has a long filter behind its words.
#[derive(Drop)]
pub(crate) struct ProgramRows;

impl RowRunner for ProgramRows {
    fn inputs(&self) -> &'static [&'static str] {
        &["files", "words", "chain", "times"]
    }

    fn run_row(
        &mut self,
        alloc: Global,
        row: Row<'_>,
        answers: &mut Answers,
    ) -> Result<(), RowFault> {
        let filter = long_filter(alloc, row)?;
        let mut words = row.texts(alloc, "words")?;
        if let Some(filter) = &filter {
            words.push(filter.as_str())?;
        }
        tell_run(alloc, row, &words, answers);
        Ok(())
    }
}

/// The filter under `chain`, if there is one: its first text, its second so often as `times` says, and its
/// third.
fn long_filter(alloc: Global, row: Row<'_>) -> Result<Option<String>, RowFault> {
    let (parts, times) = (row.texts(alloc, "chain")?, row.numbers(alloc, "times")?);
    match (parts.as_slice(), times.as_slice()) {
        ([first, again, last], [times]) => {
            let mut filter = String::from_str(alloc, *first)?;
            for _ in 0..*times {
                filter.push_str(*again)?;
            }
            filter.push_str(*last)?;
            Ok(Some(filter))
        }
        _ => Ok(None),
    }
}

/// Tells what a run ended with, what it wrote, and the names of the files that it read.
fn tell_run(alloc: Global, row: Row<'_>, words: &[&str], answers: &mut Answers) {
    let asked = String::new(alloc);
    let mut files = MemoryFiles { row, asked };
    let (mut out, mut err) = (Vec::new(alloc), Vec::new(alloc));
    let status = run(alloc, words, &mut files, &mut out, &mut err);
    answers.show("status", &status);
    answers.keep("read", Ok(files.asked));
    answers.written("stdout", out, true);
    answers.written("stderr", err, true);
}
