//! The program `check_account`: judges the account of what is on, or the explanation of a feature, by
//! the rules of a record alone. It stands on no graph and on no search.
//!
//! Begin with `main.rt`; what it judges by is `feature_account`.
#![tactic(auto)]

mod command_line;
mod program;

use crate::program::run;
use std::alloc::AllocGlobal;
use std::io;
use std::process::ExitCode;
use test_select_files::{SystemFiles, exit_code, words};

fn main(rt: HostRuntime) -> ExitCode {
    exit_code(&rt, run_on(&rt))
}

/// Runs the program on the words of the command line.
fn run_on(rt: &HostRuntime) -> io::Result<u8> {
    let words = words(rt)?;
    let mut files = SystemFiles { rt };
    let mut out = rt.stdout();
    let mut err = rt.stderr();
    Ok(run(rt.alloc(), &words, &mut files, &mut out, &mut err))
}
