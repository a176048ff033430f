//! The first broken rules of the rows of `rules.json`, and paths compared two by two, against what each
//! has to be.

mod path_rows;
mod rule_rows;

pub(crate) use crate::packages::rules::rule_rows::RuleRows;
