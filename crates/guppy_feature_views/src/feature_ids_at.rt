//! The iterator over ids of features at given places.

ghost use Rattle.std.specs.Prelude.{◌<◌, All, length};

use guppy_feature_nodes::{FeatureGraphData, FeatureId};
use list_facts::write_entries;
use std::fmt;

/// The ids of features of a graph, one after the other, from both ends.
#[derive(Clone, Copy)]
pub struct FeatureIdsAt<'g, 'a> {
    built: &'g FeatureGraphData<'g>,
    nodes: &'a [usize],
    ghost in_range: { All (λ v. v < length built.now.nodes) nodes.now },
}

impl<'g, 'a> FeatureIdsAt<'g, 'a> {
    ghost use Rattle.std.specs.Prelude.{◌≡◌};
    ghost use Rattle.guppy_feature_views.specs.CycleViews.{nodes_graph_of, nodes_left};

    /// Those with these numbers.
    pub fn of(built: &'g FeatureGraphData<'g>, nodes: &'a [usize]) -> FeatureIdsAt<'g, 'a>
        requires { All (λ v. v < length built.now.nodes) nodes.now }
        ensures graph { nodes_graph_of result ≡ built.entry.now }
        ensures nodes { nodes_left result ≡ nodes.entry.now }
    {
        FeatureIdsAt { built, nodes }
    }
}

impl<'g> Iterator for FeatureIdsAt<'g, '_> {
    type Item = FeatureId<'g>;

    ghost use Rattle.std.specs.Iterator.{YieldsFirstBy, item_count};
    ghost use Rattle.guppy_feature_demands.specs.IdViews.{id_view};
    ghost use Rattle.guppy_feature_views.specs.CycleViews.{all_nodes_left};

    ghost next_gives = { YieldsFirstBy id_view all_nodes_left };

    ghost remaining = { item_count all_nodes_left };

    fn next(&mut self) -> Option<FeatureId<'g>> {
        let (first, others) = self.nodes.split_first()?;
        self.nodes = others;
        Some(self.built.feature_at(*first))
    }

    fn size_hint(&self) -> (usize, Option<usize>) {
        (self.nodes.len(), Some(self.nodes.len()))
    }
}

impl<'g> DoubleEndedIterator for FeatureIdsAt<'g, '_> {
    ghost use Rattle.std.specs.Iterator.{YieldsLastBy};
    ghost use Rattle.guppy_feature_demands.specs.IdViews.{id_view};
    ghost use Rattle.guppy_feature_views.specs.CycleViews.{all_nodes_left};

    ghost next_back_gives = { YieldsLastBy id_view all_nodes_left };

    fn next_back(&mut self) -> Option<FeatureId<'g>> {
        let (last, others) = self.nodes.split_last()?;
        self.nodes = others;
        Some(self.built.feature_at(*last))
    }
}

impl ExactSizeIterator for FeatureIdsAt<'_, '_> {
    fn len(&self) -> usize {
        self.nodes.len()
    }
}

/// Lists what is still to come.
impl fmt::Debug for FeatureIdsAt<'_, '_> {
    fn fmt<W: fmt::Write>(&self, f: &mut fmt::Formatter<W>) -> fmt::Result {
        write_entries(f, *self)
    }
}
