//! Runs of the program `test_select` on the files and words of `runs.json`, compared with what each
//! has to print.

mod memory_files;
mod program_rows;

pub(crate) use crate::runs::program_rows::ProgramRows;
