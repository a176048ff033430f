//! The program `cargo_workspace`: makes the files that `test_select` reads of what Cargo, rustc and
//! test binaries print.
//!
//! Begin with `program.rt`; all that it makes stands in `cargo_files`.
#![tactic(auto)]

mod asking;
mod command_line;
mod conversions;
mod failure;
mod lists;
mod program;
mod reading;
mod sources;

use crate::program::run;
use crate::sources::SystemSources;
use std::alloc::AllocGlobal;
use std::io;
use std::process::ExitCode;
use test_select_files::{exit_code, words};

fn main(rt: HostRuntime) -> ExitCode {
    exit_code(&rt, run_on(&rt))
}

/// Runs the program on the words of the command line.
fn run_on(rt: &HostRuntime) -> io::Result<u8> {
    let words = words(rt)?;
    let mut files = SystemSources { rt };
    let mut out = rt.stdout();
    let mut err = rt.stderr();
    Ok(run(rt.alloc(), &words, &mut files, &mut out, &mut err))
}
