//! Features that lead to each other.

ghost use Rattle.std.specs.Prelude.{◌≡◌, IfOk};
ghost use Rattle.numbered_graph.specs.Cycles.{AreCycles};
ghost use Rattle.numbered_graph.specs.declared.direction.Direction.TheVariants.{Reverse};
ghost use Rattle.guppy_feature_demands.specs.IdViews.{id_view};
ghost use Rattle.guppy_feature_nodes.specs.GraphEdges.{edge_ends};
ghost use Rattle.guppy_feature_views.specs.CycleViews.{cycles_graph_of, cycles_left};
ghost use Rattle.guppy_feature_graph.specs.CycleValues.{AnswersCyclic};
ghost use Rattle.guppy_feature_graph.specs.Views.{feature_graph_of};

use crate::feature_graph::FeatureGraph;
use guppy_feature_nodes::FeatureId;
use guppy_feature_views::AllCycles;
use guppy_package_graph::Error;
use numbered_graph::{Direction, NumberedCycles, cycles};
use std::alloc::{AllocError, Global};
use std::fmt;
use std::marker::Model;

/// The components of a graph with two or more features.
#[derive(Drop)]
pub struct Cycles<'g> {
    graph: FeatureGraph<'g>,
    cycles: NumberedCycles,
}

impl<'g> Model for Cycles<'g> {
    ghost use Rattle.guppy_feature_graph.specs.CycleValues.{AreNumbered, CyclesValue};
    ghost use Rattle.guppy_feature_graph.specs.Views.{feature_graph_of};

    ghost Value = { CyclesValue };

    ghost view = { λ c. record { graph = feature_graph_of c.graph; cycles = c.cycles.cycles } };

    ghost invariant = { λ c. AreNumbered (feature_graph_of c.graph) c.cycles };
}

impl<'g> FeatureGraph<'g> {
    /// The cycles of the graph, none after one that leads to it.
    pub fn cycles(&self, alloc: Global) -> Result<Cycles<'g>, AllocError>
        ensures graph { IfOk result (λ c. c.graph ≡ feature_graph_of self.now) }
        ensures cycles { IfOk result (λ c. AreCycles Reverse
            (edge_ends (feature_graph_of self.now).edges) c.cycles) }
    {
        let components = cycles(alloc, self.built().edge_graph(), Direction::Reverse)?;
        let cycles = NumberedCycles::of(alloc, self.feature_count(), components)?;
        Ok(Cycles {
            graph: *self,
            cycles,
        })
    }
}

impl<'g> Cycles<'g> {
    /// Whether edges lead from the first feature to the second and back, by at least one edge each way.
    pub fn is_cyclic(
        &self,
        feature_a: FeatureId<'_>,
        feature_b: FeatureId<'_>,
    ) -> Result<bool, Error>
        ensures answer { AnswersCyclic self.now.graph (id_view feature_a.entry)
            (id_view feature_b.entry) result }
    {
        match self.graph.numbers_of_both(feature_a, feature_b) {
            Ok((a, b)) => Ok(self.cycles.is_cyclic(a, b)),
            Err(error) => Err(error),
        }
    }

    /// The cycles, each as the ids of its features: none after one that leads to it, features of one
    /// cycle together.
    pub fn all_cycles(&self) -> AllCycles<'g, '_>
        ensures graph { cycles_graph_of result ≡ self.now.graph }
        ensures cycles { cycles_left result ≡ self.now.cycles }
        ensures cyclic { AreCycles Reverse (edge_ends self.now.graph.edges) self.now.cycles }
    {
        AllCycles::of(self.graph.built(), self.cycles.lists())
    }
}

impl fmt::Debug for Cycles<'_> {
    fn fmt<W: fmt::Write>(&self, f: &mut fmt::Formatter<W>) -> fmt::Result {
        f.debug_tuple("Cycles").field(&self.all_cycles()).finish()
    }
}
