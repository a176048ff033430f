//! The features of packages as a feature graph names them: ids, labels and their kinds. And what the
//! rows of a package graph say of features: which there are, which of them leads to which and by which
//! lines, and what is odd.
//!
//! Begin with `specs/Demands.antt`, then `demands.rt`; `specs/Warnings.antt` has what is odd.
//! `FeatureId`, `FeatureLabel` and `FeatureKind` are guppy's; how nodes are numbered and found is
//! private.

#![tactic(auto)]

mod demand;
mod demands;
mod entries;
mod feature_id;
mod feature_key;
mod feature_kind;
mod feature_label;
mod feature_name;
mod hashed_id;
mod kept_demands;
mod link_declarations;
mod link_ends;
mod link_names;
mod link_table;
mod named_entries;
mod nodes;
mod numbered;
mod numbering;
mod package_at;
mod parts;
mod warnings;

pub use crate::demand::{EdgeKind, NumberedDemand};
pub use crate::feature_id::FeatureId;
pub use crate::feature_kind::FeatureKind;
pub use crate::feature_label::FeatureLabel;
pub use crate::feature_name::FeatureName;
pub use crate::link_declarations::LinkDeclarations;
pub use crate::nodes::NodeTable;
pub use crate::package_at::PackageAt;
pub use crate::parts::{FeatureParts, feature_parts};
