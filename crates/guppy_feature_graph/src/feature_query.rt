//! Queries: features to start from, and a direction.

ghost use Rattle.std.specs.Prelude.{◌≡◌, ◌<◌, All, IfOk, IsTrue, Ok, length};
ghost use Rattle.numbered_graph.specs.Sets.{has};
ghost use Rattle.guppy_feature_graph.specs.Queries.{AreInitials, AreStarts, IsQueryOf};
ghost use Rattle.guppy_feature_graph.specs.Views.{feature_graph_of};

use crate::feature_graph::FeatureGraph;
use crate::feature_set::FeatureSet;
use guppy_package_graph::DependencyDirection;
use std::alloc::{AllocError, Global};
use std::fmt;
use std::marker::Model;

/// Features of a graph from which links are followed in a direction.
#[derive(Drop)]
pub struct FeatureQuery<'g> {
    initials: FeatureSet<'g>,
    direction: DependencyDirection,
    starts: Vec<usize>,
}

impl<'g> Model for FeatureQuery<'g> {
    ghost use Rattle.std.specs.Prelude.{length};
    ghost use Rattle.guppy_feature_graph.specs.Queries.{AreStarts, QueryValue};

    ghost Value = { QueryValue };

    ghost view = { λ q. record { graph = q.initials.graph; direction = q.direction; initials = q.starts.items } };

    ghost invariant = { λ q. AreStarts (length q.initials.graph.nodes) q.initials.included q.starts.items };
}

impl<'g> FeatureQuery<'g> {
    /// A query from the features of a set.
    pub(crate) fn of(
        alloc: Global,
        initials: FeatureSet<'g>,
        direction: DependencyDirection,
    ) -> Result<FeatureQuery<'g>, AllocError>
        ensures { IfOk result (IsQueryOf initials.entry.graph direction
            (λ v. IsTrue (has initials.entry.included v))) }
    {
        let starts = initials.included().members(alloc)?;
        FeatureQuery::found(initials, direction, starts)
    }

    /// A query from the features of a set, which are told by their numbers too, as an answer.
    pub(crate) fn found(
        initials: FeatureSet<'g>,
        direction: DependencyDirection,
        starts: Vec<usize>,
    ) -> Result<FeatureQuery<'g>, AllocError>
        requires { AreStarts (length initials.graph.nodes) initials.included starts.items }
        ensures { result ≡ Ok record {
          graph = initials.entry.graph;
          direction = direction;
          initials = starts.items;
        } }
    {
        Ok(FeatureQuery {
            initials,
            direction,
            starts,
        })
    }

    /// An equal query in memory of its own.
    pub fn copy(&self, alloc: Global) -> Result<FeatureQuery<'g>, AllocError>
        ensures same { IfOk result (λ q. q ≡ self.now) }
    {
        let initials = self.initials.copy(alloc)?;
        let starts = Vec::from_slice(alloc, &self.starts)?;
        FeatureQuery::found(initials, self.direction, starts)
    }

    /// The graph that is asked.
    pub fn graph(&self) -> &FeatureGraph<'g>
        ensures graph { feature_graph_of result.now ≡ self.now.graph }
    {
        self.initials.graph()
    }

    /// The direction in which links are followed.
    pub fn direction(&self) -> DependencyDirection
        ensures direction { result ≡ self.now.direction }
    {
        self.direction
    }

    /// The features from which links are followed.
    pub fn initials(&self) -> &FeatureSet<'g>
        ensures graph { result.now.graph ≡ self.now.graph }
        ensures initials { AreInitials (λ v. IsTrue (has result.now.included v)) self.now.initials }
    {
        &self.initials
    }

    pub(crate) fn starts(&self) -> &[usize]
        ensures value { result.now ≡ self.now.initials }
        ensures within { All (λ v. v < length self.now.graph.nodes) result.now }
    {
        &self.starts
    }
}

impl fmt::Debug for FeatureQuery<'_> {
    fn fmt<W: fmt::Write>(&self, f: &mut fmt::Formatter<W>) -> fmt::Result {
        f.debug_struct("FeatureQuery")
            .field("direction", &self.direction)
            .field("initials", &self.initials)
            .finish()
    }
}
