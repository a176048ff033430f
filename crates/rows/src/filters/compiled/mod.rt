//! Filters of `compiled.json`, compiled over the packages of a record and asked about binaries and tests,
//! compared with what each has to say.

mod compiled_rows;
mod contexts;
mod queries;
mod row_groups;

pub(crate) use crate::filters::compiled::compiled_rows::CompiledRows;
