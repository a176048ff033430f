//! The iterator that takes a feature list over.

use crate::feature_list::FeatureList;
use guppy_feature_demands::{FeatureId, FeatureLabel};
use guppy_package_parts::PackageId;
use std::{fmt, vec};

/// The ids of the features of a list that is given up, ascending, from both ends.
#[derive(Drop)]
pub struct IntoIter<'g> {
    package_id: &'g PackageId,
    labels: vec::IntoIter<FeatureLabel<'g>>,
}

impl<'g> IntoIter<'g> {
    ghost use Rattle.guppy_feature_views.specs.Listing.{Lists};
    ghost use Rattle.guppy_feature_views.specs.ListViews.{owned_features_left};

    /// The features of a list.
    pub fn new(list: FeatureList<'g>) -> IntoIter<'g>
        ensures features { Lists list.entry (owned_features_left result) }
    {
        let package_id = list.package().id();
        let labels = list.into_labels().into_iter();
        IntoIter { package_id, labels }
    }
}

impl<'g> Iterator for IntoIter<'g> {
    type Item = FeatureId<'g>;

    ghost use Rattle.std.specs.Iterator.{YieldsFirstBy, item_count};
    ghost use Rattle.guppy_feature_demands.specs.IdViews.{id_view};
    ghost use Rattle.guppy_feature_views.specs.ListViews.{owned_features_left};

    ghost next_gives = { YieldsFirstBy id_view owned_features_left };

    ghost remaining = { item_count owned_features_left };

    fn next(&mut self) -> Option<FeatureId<'g>> {
        let label = self.labels.next()?;
        Some(FeatureId::new(self.package_id, label))
    }

    fn size_hint(&self) -> (usize, Option<usize>) {
        (self.labels.len(), Some(self.labels.len()))
    }
}

impl<'g> DoubleEndedIterator for IntoIter<'g> {
    ghost use Rattle.std.specs.Iterator.{YieldsLastBy};
    ghost use Rattle.guppy_feature_demands.specs.IdViews.{id_view};
    ghost use Rattle.guppy_feature_views.specs.ListViews.{owned_features_left};

    ghost next_back_gives = { YieldsLastBy id_view owned_features_left };

    fn next_back(&mut self) -> Option<FeatureId<'g>> {
        let label = self.labels.next_back()?;
        Some(FeatureId::new(self.package_id, label))
    }
}

impl ExactSizeIterator for IntoIter<'_> {
    fn len(&self) -> usize {
        self.labels.len()
    }
}

impl fmt::Debug for IntoIter<'_> {
    fn fmt<W: fmt::Write>(&self, f: &mut fmt::Formatter<W>) -> fmt::Result {
        f.debug_struct("IntoIter")
            .field("package_id", &self.package_id)
            .field("left", &self.labels.len())
            .finish_non_exhaustive()
    }
}
