//! Nodes as a graph keeps them: the place of the package, and the label. They lend nothing, so what
//! lends a graph carries no texts of its packages with it.

ghost use Rattle.std.specs.Prelude.{◌≡◌, ◌≢◌, AllPairs, Contains, IfOk, map};
ghost use Rattle.workspace_record.specs.Features.{FeatureValue};
ghost use Rattle.workspace_record.specs.LabelView as kept;
ghost use Rattle.guppy_feature_demands.specs.IdViews.{id_view};
ghost use Rattle.guppy_feature_demands.specs.LabelViews.{label_view};
ghost use Rattle.guppy_package_table.specs.Tables.{ids_of};
ghost use Rattle.guppy_feature_nodes.specs.NodeNames.{node_eq, node_of};

use guppy_feature_demands::{FeatureId, FeatureLabel};
use guppy_package_graph::PackageGraph;
use indexmap::{Equivalent, IndexSet};
use std::alloc::{AllocError, Global};
use std::hash::{Hash, Hasher};
use std::marker::Model;
use workspace_record::Label;

/// A feature of the package at a place.
#[derive(Drop)]
pub(crate) struct NodeName {
    pub place: usize,
    pub label: Label,
}

impl Model for NodeName {
    ghost use Rattle.workspace_record.specs.LabelView.{label_view};
    ghost use Rattle.guppy_feature_nodes.specs.NodeNames.{NodeValue};

    ghost Value = { NodeValue };

    ghost view = { λ n. record { place = n.place; label = label_view n.label } };
}

impl PartialEq for NodeName {
    ghost use Rattle.std.specs.Cmp.{partial_equiv_from_equiv};
    ghost use Rattle.workspace_record.specs.Equality.{equivalence};
    ghost use Rattle.guppy_feature_nodes.specs.NodeNames.{node_eq, nodes_decide};

    ghost eq = { node_eq };

    ghost laws = { partial_equiv_from_equiv (equivalence nodes_decide) };

    fn eq(&self, other: &Self) -> bool {
        self.place == other.place && self.label == other.label
    }
}

impl Eq for NodeName {
    ghost use Rattle.workspace_record.specs.Equality.{equivalence};
    ghost use Rattle.guppy_feature_nodes.specs.NodeNames.{nodes_decide};

    ghost laws = { equivalence nodes_decide };
}

impl Hash for NodeName {
    ghost use Rattle.guppy_feature_nodes.specs.NodeNames.{node_writes, same_node_writes};

    ghost hash_input = { node_writes };

    ghost respects_eq = { same_node_writes };

    fn hash<H: Hasher>(&self, state: &mut H) {
        state.write_usize(self.place);
        lent_label(&self.label).hash(state);
    }
}

/// The same with a label that is lent, which is looked up in its place.
#[derive(Clone, Copy)]
pub(crate) struct LentNode<'a> {
    pub place: usize,
    pub label: FeatureLabel<'a>,
}

impl PartialEq for LentNode<'_> {
    ghost use Rattle.std.specs.Cmp.{partial_equiv_from_equiv};
    ghost use Rattle.std.specs.Ordering.{on};
    ghost use Rattle.guppy_feature_nodes.specs.NodeNames.{lent_equivalence, lent_view, node_eq};

    ghost eq = { on lent_view node_eq };

    ghost laws = { partial_equiv_from_equiv lent_equivalence };

    fn eq(&self, other: &Self) -> bool {
        self.place == other.place && self.label == other.label
    }
}

impl Eq for LentNode<'_> {
    ghost use Rattle.guppy_feature_nodes.specs.NodeNames.{lent_equivalence};

    ghost laws = { lent_equivalence };
}

impl Hash for LentNode<'_> {
    ghost use Rattle.guppy_feature_nodes.specs.NodeNames.{lent_view, node_writes, same_node_writes};

    ghost hash_input = { λ n. node_writes (lent_view n) };

    ghost respects_eq = { λ a b. same_node_writes (lent_view a) (lent_view b) };

    fn hash<H: Hasher>(&self, state: &mut H) {
        state.write_usize(self.place);
        self.label.hash(state);
    }
}

impl Equivalent<NodeName> for LentNode<'_> {
    ghost use Rattle.workspace_record.specs.Equality.{equivalence};
    ghost use Rattle.guppy_feature_nodes.specs.NodeNames.{lent_view, node_eq, nodes_decide, same_node_writes};

    ghost equivalent = { λ q k. node_eq (lent_view q) k };

    ghost respects_hash = { λ q k h. same_node_writes (lent_view q) k h };

    ghost respects_eq = { λ q x y. (equivalence nodes_decide).congr (lent_view q) x y };

    fn equivalent(&self, key: &NodeName) -> bool {
        self.place == key.place && self.label == lent_label(&key.label)
    }
}

/// The label, lent.
pub(crate) fn lent_label(label: &Label) -> FeatureLabel<'_>
    ensures { label_view result ≡ kept.label_view label.now }
{
    match label {
        Label::Base => FeatureLabel::Base,
        Label::Named(name) => FeatureLabel::Named(name.as_str()),
        Label::Dep(name) => FeatureLabel::OptionalDependency(name.as_str()),
    }
}

// The label in memory of its own.
fn owned_label(alloc: Global, label: FeatureLabel<'_>) -> Result<Label, AllocError>
    ensures { IfOk result (λ l. kept.label_view l ≡ label_view label.entry) }
{
    match label {
        FeatureLabel::Base => Ok(Label::Base),
        FeatureLabel::Named(name) => Ok(Label::Named(String::from_str(alloc, name)?)),
        FeatureLabel::OptionalDependency(name) => { Ok(Label::Dep(String::from_str(alloc, name)?)) }
    }
}

/// The features of a graph's packages, each by the place of its package and its label.
pub(crate) fn node_names(
    alloc: Global,
    graph: &PackageGraph,
    features: &[FeatureId<'_>],
) -> Result<IndexSet<NodeName>, AllocError>
    requires known { (f : FeatureValue) → Contains (map id_view features.now) f
        → Contains (ids_of graph.now.packages) f.package_id }
    requires differ { AllPairs (λ x y. x ≢ y) (map id_view features.now) }
    ensures { IfOk result (λ names. names.keys
        ≡ map (node_of (ids_of graph.now.packages)) (map id_view features.now)) }
{
    let mut names: IndexSet<NodeName> = IndexSet::with_capacity(alloc, features.len())?;
    for feature in features {
        let place = graph.number_of(feature.package_id().repr());
        let label = owned_label(alloc, feature.label())?;
        names.insert(NodeName { place, label })?;
    }
    Ok(names)
}
