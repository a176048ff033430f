//! Rows of wanted answers, each compared with what comes: of selections over records, choices, tables and
//! listings; and of runs of the program `test_select` on files and words, those of
//! `examples/cargo_workspace` too.
#![tactic(auto)]

mod runs;
mod selections;

use crate::runs::ProgramRows;
use crate::selections::SelectionRows;
use row_program::run_file;
use std::io::{self, Write};
use std::process::ExitCode;

fn main(rt: HostRuntime) -> io::Result<ExitCode> {
    let mut out = rt.stdout();
    let same = run_selections(&rt, &mut out)?;
    Ok(ExitCode::from(if same { 0 } else { 1 }))
}

fn run_selections<W: Write>(rt: &HostRuntime, out: &mut W) -> io::Result<bool> {
    let selections = run_file(rt, "selections", "selections.json", &mut SelectionRows, out)?;
    let runs = run_file(rt, "runs", "runs.json", &mut ProgramRows, out)?;
    let example = run_file(rt, "example", "example.json", &mut ProgramRows, out)?;
    Ok(selections && runs && example)
}
