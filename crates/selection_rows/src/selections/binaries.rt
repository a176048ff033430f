//! The test binaries of a record, as text.

use row_program::Answers;
use std::alloc::Global;
use test_select::WorkspaceRecord;
use test_select_rules::binaries::{TestBinary, binaries};

/// Tells a line for each binary of any record: its id, its package's name and version, and its
/// target's name.
pub(crate) fn tell_binaries(alloc: Global, record: &WorkspaceRecord, answers: &mut Answers) {
    match binaries(alloc, record) {
        Ok(all) => {
            answers.begin("binaries");
            for binary in &all {
                add_line(binary, answers);
            }
        }
        Err(refused) => answers.keep("binaries", Err(refused)),
    }
}

fn add_line(binary: &TestBinary<'_>, answers: &mut Answers) {
    let (row, target) = (binary.row, binary.target);
    answers.add(&binary.id.as_str());
    answers.part(" ", &row.name);
    answers.part(" ", &row.version);
    answers.part(" ", &target.name);
    answers.add(&"\n");
}
