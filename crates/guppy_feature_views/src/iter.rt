//! The iterator over a feature list.

use crate::feature_list::FeatureList;
use guppy_feature_demands::{FeatureId, FeatureLabel};
use guppy_package_parts::PackageId;
use std::{fmt, slice};

/// The ids of the features of a list, ascending, from both ends.
#[derive(Drop)]
pub struct Iter<'g, 'a> {
    package_id: &'g PackageId,
    labels: slice::Iter<'a, FeatureLabel<'g>>,
}

impl<'g, 'a> Iter<'g, 'a> {
    ghost use Rattle.guppy_feature_views.specs.Listing.{Lists};
    ghost use Rattle.guppy_feature_views.specs.ListViews.{features_left};

    /// The features of a list.
    pub fn new(list: &'a FeatureList<'g>) -> Iter<'g, 'a>
        ensures features { Lists list.entry.now (features_left result) }
    {
        Iter {
            package_id: list.package().id(),
            labels: list.labels().iter(),
        }
    }
}

impl<'g> Iterator for Iter<'g, '_> {
    type Item = FeatureId<'g>;

    ghost use Rattle.std.specs.Iterator.{YieldsFirstBy, item_count};
    ghost use Rattle.guppy_feature_demands.specs.IdViews.{id_view};
    ghost use Rattle.guppy_feature_views.specs.ListViews.{features_left};

    ghost next_gives = { YieldsFirstBy id_view features_left };

    ghost remaining = { item_count features_left };

    fn next(&mut self) -> Option<FeatureId<'g>> {
        let label = self.labels.next()?;
        Some(FeatureId::new(self.package_id, *label))
    }

    fn size_hint(&self) -> (usize, Option<usize>) {
        (self.labels.len(), Some(self.labels.len()))
    }
}

impl<'g> DoubleEndedIterator for Iter<'g, '_> {
    ghost use Rattle.std.specs.Iterator.{YieldsLastBy};
    ghost use Rattle.guppy_feature_demands.specs.IdViews.{id_view};
    ghost use Rattle.guppy_feature_views.specs.ListViews.{features_left};

    ghost next_back_gives = { YieldsLastBy id_view features_left };

    fn next_back(&mut self) -> Option<FeatureId<'g>> {
        let label = self.labels.next_back()?;
        Some(FeatureId::new(self.package_id, *label))
    }
}

impl ExactSizeIterator for Iter<'_, '_> {
    fn len(&self) -> usize {
        self.labels.len()
    }
}

impl fmt::Debug for Iter<'_, '_> {
    fn fmt<W: fmt::Write>(&self, f: &mut fmt::Formatter<W>) -> fmt::Result {
        f.debug_struct("Iter")
            .field("package_id", &self.package_id)
            .field("labels", &self.labels.as_slice())
            .finish()
    }
}
