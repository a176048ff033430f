//! Roots of sets of features, and edges inside them.

ghost use Rattle.std.specs.Prelude.{◌≡◌, ◌<◌, ℕ, List, All, IfOk, IsTrue, filter, length, map};
ghost use Rattle.numbered_graph.specs.Sets.{has};
ghost use Rattle.guppy_feature_demands.specs.IdViews.{id_view};
ghost use Rattle.guppy_feature_nodes.specs.Graphs.{feature_at};
ghost use Rattle.guppy_feature_views.specs.Views.{link_view, seen};
ghost use Rattle.guppy_feature_graph.specs.Queries.{IsQueryOf};
ghost use Rattle.guppy_feature_views.specs.Told.{is_conditional, told_at, told_view, whole_link};
ghost use Rattle.guppy_feature_graph.specs.SetParts.{AreRoots, edges_inside};

use crate::direction::direction_of;
use crate::feature_query::FeatureQuery;
use crate::feature_set::FeatureSet;
use guppy_feature_nodes::{FeatureEdge, FeatureId};
use guppy_feature_views::{
    ConditionalLink, FeatureMetadata, edges_told, features_at, ids_at, in_root_order, links_at,
};
use guppy_package_graph::DependencyDirection;
use numbered_graph::{links_inside, root_nodes};
use std::alloc::{AllocError, Global};

impl<'g> FeatureSet<'g> {
    /// A query from the features of the set.
    pub fn to_feature_query(
        &self,
        alloc: Global,
        direction: DependencyDirection,
    ) -> Result<FeatureQuery<'g>, AllocError>
        ensures query { IfOk result (IsQueryOf self.now.graph direction
            (λ v. IsTrue (has self.now.included v))) }
    {
        let initials = self.copy(alloc)?;
        FeatureQuery::of(alloc, initials, direction)
    }

    /// The features whose component no edge inside the set enters from another component, or in
    /// Reverse leaves to another: package by package in the order of the record, the labels ascending.
    pub fn root_features(
        &self,
        alloc: Global,
        direction: DependencyDirection,
    ) -> Result<Vec<FeatureMetadata<'g>>, AllocError>
        ensures roots { IfOk result (λ fs. (nodes : List ℕ) × AreRoots self.now direction nodes
            × (map seen fs.items ≡ map (λ v. (self.now.graph, v)) nodes)) }
    {
        let nodes = roots(alloc, self, direction)?;
        features_at(alloc, self.graph().built(), &nodes)
    }

    /// The ids of those features, in that order.
    pub fn root_ids(
        &self,
        alloc: Global,
        direction: DependencyDirection,
    ) -> Result<Vec<FeatureId<'g>>, AllocError>
        ensures roots { IfOk result (λ ids. (nodes : List ℕ) × AreRoots self.now direction nodes
            × (map id_view ids.items ≡ map (feature_at self.now.graph) nodes)) }
    {
        let nodes = roots(alloc, self, direction)?;
        ids_at(alloc, self.graph().built(), &nodes)
    }

    /// The edges whose ends are both in the set, each once: the two features, and why the one leads to
    /// the other.
    pub fn links(
        &self,
        alloc: Global,
    ) -> Result<Vec<(FeatureId<'g>, FeatureId<'g>, &'g FeatureEdge)>, AllocError>
        ensures inside { IfOk result (λ ls. map told_view ls.items
            ≡ map (told_at self.now.graph) (edges_inside self.now)) }
    {
        let numbers = inside(alloc, self)?;
        edges_told(alloc, self.graph().built(), &numbers)
    }

    /// The links whose ends are both in the set and that stand on lines, each once as a whole.
    pub fn conditional_links(&self, alloc: Global) -> Result<Vec<ConditionalLink<'g>>, AllocError>
        ensures inside { IfOk result (λ ls. map link_view ls.items
            ≡ map (whole_link self.now.graph)
            (filter (is_conditional self.now.graph) (edges_inside self.now))) }
    {
        let numbers = inside(alloc, self)?;
        links_at(alloc, self.graph().built(), &numbers)
    }
}

// The numbers of the roots of a set, in the order of roots.
fn roots(
    alloc: Global,
    set: &FeatureSet<'_>,
    direction: DependencyDirection,
) -> Result<Vec<usize>, AllocError>
    ensures roots { IfOk result (λ nodes. AreRoots set.now direction nodes.items) }
    ensures within { IfOk result (λ nodes. All (λ v. v < length set.now.graph.nodes) nodes.items) }
{
    let built = set.graph().built();
    let graph = built.edge_graph();
    let found = root_nodes(alloc, graph, set.included(), direction_of(direction))?;
    let nodes = in_root_order(alloc, built, &found)?;
    Ok(nodes)
}

// The numbers of the edges inside a set.
fn inside(alloc: Global, set: &FeatureSet<'_>) -> Result<Vec<usize>, AllocError>
    ensures inside { IfOk result (λ numbers. numbers.items ≡ edges_inside set.now) }
    ensures within { IfOk result (λ numbers.
        All (λ j. j < length set.now.graph.edges) numbers.items) }
{
    let graph = set.graph().built().edge_graph();
    let numbers = links_inside(alloc, graph, set.included())?;
    Ok(numbers)
}
