//! Texts of filters: globs and matchers, tokens and patterns at their places, whole filters, and filters
//! compiled over the packages of a record.

mod compiled;
mod matchers;
mod spans;
mod syntax;
mod texts;

pub(crate) use crate::filters::compiled::CompiledRows;
pub(crate) use crate::filters::matchers::MatcherRows;
pub(crate) use crate::filters::syntax::FilterRows;
pub(crate) use crate::filters::texts::PlaceRows;
