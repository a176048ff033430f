//! Features that are read at the price of a look.

ghost use Rattle.std.specs.Prelude.{◌≡◌, ◌+◌, ◌<◌, length, slice_index_or};
ghost use Rattle.workspace_record.specs.Features.{feature_cmp};
ghost use Rattle.test_select_rules.specs.CountedViews.{counted_list};

use feature_account::FeatureRef;
use numbered_graph::Looks;
use std::cmp::Ordering;
use std::sync::ledger::Ledger;
use workspace_record::Feature;

/// A list of features that says nothing of any of them without a look.
#[derive(Drop)]
pub(crate) struct CountedFeatures<'a> {
    features: &'a [Feature],
}

impl<'a> CountedFeatures<'a> {
    pub(crate) fn of(features: &'a [Feature]) -> CountedFeatures<'a>
        ensures { counted_list result ≡ features.entry.now }
    {
        CountedFeatures { features }
    }

    /// How many features there are.
    pub(crate) fn len(&self) -> usize
        ensures count { result ≡ length (counted_list self.now) }
    {
        self.features.len()
    }

    /// How the feature at a place compares with the wanted one: a look.
    pub(crate) fn compare<L: Ledger>(
        &self,
        place: usize,
        wanted: &FeatureRef<'_>,
        looks: &mut Looks<L>,
    ) -> Ordering
        requires { place < length (counted_list self.now) }
        ensures order { result ≡ feature_cmp (slice_index_or (counted_list self.now) place
            wanted.now) wanted.now }
        ensures looks { looks.new ≡ looks.old + 1 }
    {
        looks.tick();
        FeatureRef::of(&self.features[place]).cmp(wanted)
    }
}
