//! The program `test_select`, with the files and streams of the system.
//!
//! All that it does stands in `test_select`, `program.rt`.
#![tactic(auto)]

use std::alloc::AllocGlobal;
use std::io::{self, BufWriter};
use std::process::ExitCode;
use test_select::run;
use test_select_files::{SystemFiles, exit_code, words};

fn main(rt: HostRuntime) -> ExitCode {
    exit_code(&rt, run_on(&rt))
}

/// Runs the program on the words of the command line. What it prints goes out in larger parts, the last of
/// them when `run` flushes.
fn run_on(rt: &HostRuntime) -> io::Result<u8> {
    let words = words(rt)?;
    let mut files = SystemFiles { rt };
    let mut out = BufWriter::new(rt.alloc(), rt.stdout())?;
    let mut err = rt.stderr();
    Ok(run(rt.alloc(), &words, &mut files, &mut out, &mut err))
}
