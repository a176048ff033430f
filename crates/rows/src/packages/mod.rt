//! Packages: what their parts say, the rules that they keep, and graphs of them.

mod graphs;
mod parts;
mod rules;

pub(crate) use crate::packages::graphs::GraphRows;
pub(crate) use crate::packages::parts::PartRows;
pub(crate) use crate::packages::rules::RuleRows;
