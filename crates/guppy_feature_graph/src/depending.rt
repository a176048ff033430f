//! Whether one feature leads to another.

ghost use Rattle.std.specs.Prelude.{◌↔◌, ◌<◌, IsTrue};
ghost use Rattle.guppy_feature_demands.specs.IdViews.{id_view};
ghost use Rattle.guppy_feature_graph.specs.Depending.{AnswersDepending, AnswersDirectly, FindsPair, HasLink};
ghost use Rattle.guppy_feature_graph.specs.Views.{feature_graph_of};

use crate::feature_graph::FeatureGraph;
use guppy_feature_nodes::FeatureId;
use guppy_package_graph::Error;
use numbered_graph::{Direction, Graph, leads_to};
use std::alloc::Global;

impl FeatureGraph<'_> {
    /// Whether a path of edges, maybe an empty one, leads from the first feature to the second. The walk
    /// ends once the second is reached.
    pub fn depends_on(
        &self,
        alloc: Global,
        feature_a: FeatureId<'_>,
        feature_b: FeatureId<'_>,
    ) -> Result<bool, Error>
        ensures answer { AnswersDepending (feature_graph_of self.now) (id_view feature_a.entry)
            (id_view feature_b.entry) result }
    {
        match self.numbers_of_both(feature_a, feature_b) {
            Ok((from, to)) => {
                let leads = leads_to(alloc, self.built().edge_graph(), from, to)?;
                Ok(leads)
            }
            Err(error) => Err(error),
        }
    }

    /// Whether an edge leads from the first feature to the second.
    pub fn directly_depends_on(
        &self,
        feature_a: FeatureId<'_>,
        feature_b: FeatureId<'_>,
    ) -> Result<bool, Error>
        ensures answer { AnswersDirectly (feature_graph_of self.now) (id_view feature_a.entry)
            (id_view feature_b.entry) result }
    {
        match self.numbers_of_both(feature_a, feature_b) {
            Ok((from, to)) => Ok(has_link(self.built().edge_graph(), from, to)),
            Err(error) => Err(error),
        }
    }

    pub(crate) fn numbers_of_both(
        &self,
        feature_a: FeatureId<'_>,
        feature_b: FeatureId<'_>,
    ) -> Result<(usize, usize), Error>
        ensures { FindsPair (feature_graph_of self.now) (id_view feature_a.entry)
            (id_view feature_b.entry) result }
    {
        match (self.number_of(feature_a), self.number_of(feature_b)) {
            (Ok(a), Ok(b)) => Ok((a, b)),
            _ => Err(Error::UnknownFeatureId),
        }
    }
}

// Whether a link leads from one node to another.
fn has_link(graph: &Graph, from: usize, to: usize) -> bool
    requires { from < graph.now.nodes }
    ensures { IsTrue result ↔ HasLink graph.now.links from to }
{
    let mut next = graph.first_link(Direction::Forward, from);
    while let Some(number) = next {
        if graph.far(Direction::Forward, number) == to {
            return true;
        }
        next = graph.next_link(Direction::Forward, number);
    }
    false
}
