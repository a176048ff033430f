//! The iterator over ids of a set's features.

ghost use Rattle.std.specs.Prelude.{◌<◌, All, length};
ghost use Rattle.numbered_graph.specs.ListedViews.{listed_left};

use guppy_feature_nodes::{FeatureGraphData, FeatureId};
use list_facts::write_entries;
use numbered_graph::Listed;
use std::fmt;

/// The ids of the features of a set in the order in which their graph lists them, from both ends.
#[derive(Clone, Copy)]
pub struct FeatureIds<'g, 'a> {
    built: &'g FeatureGraphData<'g>,
    listed: Listed<'a>,
    ghost in_range: { All (λ v. v < length built.now.nodes) (listed_left listed) },
}

impl<'g, 'a> FeatureIds<'g, 'a> {
    ghost use Rattle.std.specs.Prelude.{◌≡◌};
    ghost use Rattle.guppy_feature_views.specs.FeatureViews.{ids_graph_of, ids_nodes_left};

    /// Those with the listed numbers.
    pub fn of(built: &'g FeatureGraphData<'g>, listed: Listed<'a>) -> FeatureIds<'g, 'a>
        requires { All (λ v. v < length built.now.nodes) (listed_left listed) }
        ensures graph { ids_graph_of result ≡ built.entry.now }
        ensures nodes { ids_nodes_left result ≡ listed_left listed.entry }
    {
        FeatureIds { built, listed }
    }
}

impl<'g> Iterator for FeatureIds<'g, '_> {
    type Item = FeatureId<'g>;

    ghost use Rattle.std.specs.Iterator.{YieldsFirstBy, item_count};
    ghost use Rattle.guppy_feature_demands.specs.IdViews.{id_view};
    ghost use Rattle.guppy_feature_views.specs.FeatureViews.{all_ids_left};

    ghost next_gives = { YieldsFirstBy id_view all_ids_left };

    ghost remaining = { item_count all_ids_left };

    fn next(&mut self) -> Option<FeatureId<'g>> {
        let node = self.listed.next()?;
        Some(self.built.feature_at(node))
    }

    fn size_hint(&self) -> (usize, Option<usize>) {
        (self.listed.len(), Some(self.listed.len()))
    }
}

impl<'g> DoubleEndedIterator for FeatureIds<'g, '_> {
    ghost use Rattle.std.specs.Iterator.{YieldsLastBy};
    ghost use Rattle.guppy_feature_demands.specs.IdViews.{id_view};
    ghost use Rattle.guppy_feature_views.specs.FeatureViews.{all_ids_left};

    ghost next_back_gives = { YieldsLastBy id_view all_ids_left };

    fn next_back(&mut self) -> Option<FeatureId<'g>> {
        let node = self.listed.next_back()?;
        Some(self.built.feature_at(node))
    }
}

impl ExactSizeIterator for FeatureIds<'_, '_> {
    fn len(&self) -> usize {
        self.listed.len()
    }
}

/// Lists what is still to come.
impl fmt::Debug for FeatureIds<'_, '_> {
    fn fmt<W: fmt::Write>(&self, f: &mut fmt::Formatter<W>) -> fmt::Result {
        write_entries(f, *self)
    }
}
