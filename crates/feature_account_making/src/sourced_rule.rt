//! Rules that know their source.

use crate::rule_source::RuleSource;
use feature_account::Rule;

/// A rule, and what it comes from.
#[derive(Debug, Drop)]
pub struct SourcedRule<'r> {
    pub source: RuleSource<'r>,
    pub rule: Rule,
}
