//! guppy's feature graph: features and the links between them, walks over them that a visitor steers,
//! and sets of features. It gives out all of the nodes and views.
//!
//! A resolve is the loop over `OfferWalk` in `resolving.rt`, once with a `&mut dyn
//! FeatureLinkVisitor` and once with a closure. `ask_due` asks about what is offered at once, of two
//! halves about the required one first; `ask` makes the link and the context. The loop's invariant
//! says that the walk is the query's (`IsWalkOf`), that what was shown chains by the visitor's
//! steps, that no call changed the steps, and how many looks were taken.
//!
//! Begin with `feature_graph.rt`, then `feature_query.rt` and `feature_set.rt`; `specs/Resolves.antt`
//! says what a resolve answers. Each public item is a name of guppy's.

#![tactic(auto)]

mod choosing;
mod cycles;
mod depending;
mod direction;
mod dyn_filters;
mod feature_filter;
mod feature_filter_fn;
mod feature_graph;
mod feature_link_context;
mod feature_query;
mod feature_set;
mod feature_sets;
mod features_for;
mod filter_by_ids;
mod filter_by_names;
mod filtered;
mod filters;
mod found_features;
mod initial_packages;
pub mod laws;
mod lists_of_packages;
mod package_features;
mod package_sets;
mod packages_of;
mod queries;
mod resolves;
mod resolving;
mod set_equality;
mod set_parts;
mod standard_features;
mod taking;
mod verifying;
mod visitor;

pub use crate::cycles::Cycles;
pub use crate::feature_filter::FeatureFilter;
pub use crate::feature_filter_fn::FeatureFilterFn;
pub use crate::feature_graph::FeatureGraph;
pub use crate::feature_link_context::FeatureLinkContext;
pub use crate::feature_query::FeatureQuery;
pub use crate::feature_set::FeatureSet;
pub use crate::filter_by_ids::{FeatureIdFilter, feature_id_filter};
pub use crate::filter_by_names::{NamedFeatureFilter, named_feature_filter};
pub use crate::initial_packages::InitialPackages;
pub use crate::package_sets::{
    default_feature_id, package_to_feature_set, query_to_feature_query, set_to_feature_set,
};
pub use crate::standard_features::StandardFeatures;
pub use crate::visitor::FeatureLinkVisitor;
pub use guppy_feature_nodes::{
    ConditionalLinkImpl, EnabledLink, FeatureEdge, FeatureGraphData, FeatureId, FeatureKind,
    FeatureLabel, FeatureName, LinkDeclarations, NodeEdge, SlashForm, WeakIndex, WeakSlashImpl,
};
pub use guppy_feature_views::{
    AllCycles, ConditionalLink, DisplayFeatures, FeatureIds, FeatureIdsAt, FeatureList,
    FeatureMetadata, Features, IntoIter, Iter, LabelNames, PackageLinks,
};
pub use numbered_graph::Graph;
pub use numbered_offers::OfferGraph;
