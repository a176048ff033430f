//! The rules of records on packages, links and members, and paths compared by their components.
//!
//! Begin with `specs/Rules.antt`, then `package_rules.rt`. Records are checked and graphs are built by
//! these rules, so their list and their order are public; how one is tested is private.
#![tactic(auto)]

pub mod distinct;
mod id_rules;
mod link_rules;
mod member_rules;
mod package_graph_error;
mod package_rules;
mod paths;
mod readings;
mod record_rule;
mod target_rules;
pub mod text_sets;

pub use crate::package_graph_error::PackageGraphError;
pub use crate::package_rules::read_rows;
pub use crate::paths::{PathText, compare_paths, is_part, is_relative, same_path};
pub use crate::readings::{RowReadings, read_requirements};
pub use crate::record_rule::RecordRule;
