//! The command line, as `clap` reads it.

use test_select_files::{ACCOUNT, CHECK_HELP, CHOICE, Program, RECORD, TABLE};

/// The program, which does one thing alone.
pub(crate) const PROGRAM: Program = Program {
    name: "check_account",
    about: "Check an account of the features that are on, or the explanation of one feature",
    help: CHECK_HELP,
    words: &[RECORD, CHOICE, TABLE, ACCOUNT],
    subcommands: &[],
};
