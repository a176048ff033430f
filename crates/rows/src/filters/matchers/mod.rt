//! Globs and matchers of `matchers.json`, compared with what each has to be.

mod matcher_rows;

pub(crate) use crate::filters::matchers::matcher_rows::MatcherRows;
