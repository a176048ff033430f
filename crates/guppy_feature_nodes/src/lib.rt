//! The nodes and the edges of guppy's feature graph: the features of a package graph's packages, and
//! what leads from one to another. What is demanded between two nodes is joined in one edge where it is
//! crossed in the same way.
//!
//! A build goes so: the rows give the list of all features, of which the first of each is a node
//! (`NodeTable`, found by hash); nodes and links give what each feature, entry and line demands, by
//! names; the ends become numbers, and what has an unknown end or leads to itself is dropped; of the
//! demands that join in one edge the first is kept with the sorted lines of all, and those that give
//! way go. A node is kept as the place of its package and its label (`NodeName`), so it lends no
//! text. The data keeps, in its invariant (`IsKept`), the edges as they are offered forward, and
//! with each edge the links of the lines behind it (`EdgeLinks`); which lines are of a kind and
//! declare what is shown is asked of the lines themselves. Default features, the graph of the edges
//! and its listing are worked out once, when it is built.
//!
//! Begin with `feature_graph_data.rt` and `specs/GraphEdges.antt`, then `joining.rt`. How demands are
//! sorted and joined is private; the rows of nodes and edges are what queries and laws stand on.

#![tactic(auto)]

mod edge_key;
mod edge_lines;
mod edge_links;
mod feature_edge;
mod feature_graph_data;
mod groups;
mod joining;
mod node_edge;
mod node_names;
mod offers;
mod orders;
mod package_rows;
mod weights;

pub use crate::feature_edge::{
    ConditionalLinkImpl, EnabledLink, FeatureEdge, SlashForm, WeakIndex, WeakSlashImpl,
};
pub use crate::feature_graph_data::FeatureGraphData;
pub use crate::joining::{JoinedEdge, joined_edges};
pub use crate::node_edge::NodeEdge;
pub use guppy_feature_demands::{
    FeatureId, FeatureKind, FeatureLabel, FeatureName, LinkDeclarations,
};
