//! The rules that records of workspaces keep beyond those on packages, links and members, but for that
//! on their filters: on optional lines, features, binaries and groups. And the test binaries of a
//! workspace, and the set of features that are on, with the binaries that it switches on.
//!
//! Begin with `specs/RecordRules.antt` and `specs/Binaries.antt`, then `record_rules.rt` and
//! `features.rt`. Which rule a record breaks first is public; how it is tested is private.

#![tactic(auto)]

pub mod availability;
pub mod binaries;
mod binary_rules;
mod counted_features;
mod features;
mod group_rules;
mod optional_lines;
mod record_rules;
mod rules_on_features;
mod search;
mod test_binary;

pub use crate::features::FeaturesOn;
pub use crate::record_rules::first_broken_record_rule;
pub use guppy_package_rules::RecordRule;
