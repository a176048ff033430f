//! Views of a feature graph's features and of the links between them, alone and one after the other;
//! the features of one package, in order; and what is told of features and edges by their numbers.
//!
//! Begin with `feature_metadata.rt`, `conditional_link.rt` and `feature_list.rt`. Each public name but
//! for those of `root_order.rt` and `told.rt` is guppy's.

#![tactic(auto)]

mod all_cycles;
mod conditional_link;
mod display_features;
mod feature_ids;
mod feature_ids_at;
mod feature_list;
mod feature_metadata;
mod features;
mod into_iter;
mod iter;
mod label_names;
mod labels_of_packages;
mod package_links;
mod root_order;
mod told;

pub use crate::all_cycles::AllCycles;
pub use crate::conditional_link::ConditionalLink;
pub use crate::display_features::DisplayFeatures;
pub use crate::feature_ids::FeatureIds;
pub use crate::feature_ids_at::FeatureIdsAt;
pub use crate::feature_list::FeatureList;
pub use crate::feature_metadata::FeatureMetadata;
pub use crate::features::Features;
pub use crate::into_iter::IntoIter;
pub use crate::iter::Iter;
pub use crate::label_names::LabelNames;
pub use crate::labels_of_packages::package_labels;
pub use crate::package_links::PackageLinks;
pub use crate::root_order::in_root_order;
pub use crate::told::{edges_told, features_at, ids_at, links_at};
