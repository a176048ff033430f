//! Tests of runs of the program whose streams fail.

mod failing;
mod words;

pub(crate) use crate::runs::words::RUNS;
