//! The files of a question on features: their names on a command line, what is read of them, why a run
//! ends early, and what is to be said of the file of an account. No graph stands below.
//!
//! Begin with `file_source.rt`, which a caller may bring, then `inputs.rt`. The lines of refusals are
//! public (`docs/FORMATS.md`).
#![tactic(auto)]

mod command_line;
mod file_source;
mod inputs;
mod listed_files;
mod main_parts;
mod options;
mod printing;
mod run_failure;
mod telling;
mod verdicts;

pub use crate::command_line::{Program, Shape, Subcommand, Word};
pub use crate::file_source::{FileFault, FileSource, SystemFiles};
pub use crate::inputs::{
    FeatureQuestion, accepted, account_in, bytes_in, feature_question, record_in,
};
pub use crate::listed_files::{ListedFile, ListedFiles};
pub use crate::main_parts::{exit_code, words};
pub use crate::options::{
    ACCOUNT, CHECK_HELP, CHOICE, QuestionFiles, RECORD, TABLE, account_file, is_given, named_files,
    optional, required, values_of,
};
pub use crate::printing::{show, write_out};
pub use crate::run_failure::RunFailure;
pub use crate::telling::tell;
pub use crate::verdicts::{print_verdict, verdict_line, verdict_on};
