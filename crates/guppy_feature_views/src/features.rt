//! The iterator over a set's features.

ghost use Rattle.std.specs.Prelude.{◌<◌, All, length};
ghost use Rattle.numbered_graph.specs.ListedViews.{listed_left};

use crate::feature_metadata::FeatureMetadata;
use guppy_feature_nodes::FeatureGraphData;
use list_facts::write_entries;
use numbered_graph::Listed;
use std::fmt;

/// Features of a set in the order in which their graph lists them, from both ends.
#[derive(Clone, Copy)]
pub struct Features<'g, 'a> {
    built: &'g FeatureGraphData<'g>,
    listed: Listed<'a>,
    ghost in_range: { All (λ v. v < length built.now.nodes) (listed_left listed) },
}

impl<'g, 'a> Features<'g, 'a> {
    ghost use Rattle.std.specs.Prelude.{◌≡◌};
    ghost use Rattle.guppy_feature_views.specs.FeatureViews.{features_graph_of, features_left};

    /// Those with the listed numbers.
    pub fn of(built: &'g FeatureGraphData<'g>, listed: Listed<'a>) -> Features<'g, 'a>
        requires { All (λ v. v < length built.now.nodes) (listed_left listed) }
        ensures graph { features_graph_of result ≡ built.entry.now }
        ensures nodes { features_left result ≡ listed_left listed.entry }
    {
        Features { built, listed }
    }
}

impl<'g> Iterator for Features<'g, '_> {
    type Item = FeatureMetadata<'g>;

    ghost use Rattle.std.specs.Iterator.{YieldsFirstBy, item_count};
    ghost use Rattle.guppy_feature_views.specs.Views.{seen};
    ghost use Rattle.guppy_feature_views.specs.FeatureViews.{all_features_left};

    ghost next_gives = { YieldsFirstBy seen all_features_left };

    ghost remaining = { item_count all_features_left };

    fn next(&mut self) -> Option<FeatureMetadata<'g>> {
        let node = self.listed.next()?;
        Some(FeatureMetadata::at(self.built, node))
    }

    fn size_hint(&self) -> (usize, Option<usize>) {
        (self.listed.len(), Some(self.listed.len()))
    }
}

impl<'g> DoubleEndedIterator for Features<'g, '_> {
    ghost use Rattle.std.specs.Iterator.{YieldsLastBy};
    ghost use Rattle.guppy_feature_views.specs.Views.{seen};
    ghost use Rattle.guppy_feature_views.specs.FeatureViews.{all_features_left};

    ghost next_back_gives = { YieldsLastBy seen all_features_left };

    fn next_back(&mut self) -> Option<FeatureMetadata<'g>> {
        let node = self.listed.next_back()?;
        Some(FeatureMetadata::at(self.built, node))
    }
}

impl ExactSizeIterator for Features<'_, '_> {
    fn len(&self) -> usize {
        self.listed.len()
    }
}

/// Lists what is still to come.
impl fmt::Debug for Features<'_, '_> {
    fn fmt<W: fmt::Write>(&self, f: &mut fmt::Formatter<W>) -> fmt::Result {
        write_entries(f, *self)
    }
}
