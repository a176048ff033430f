//! Filters that add features by their ids.

ghost use Rattle.std.specs.Prelude.{◌≡◌, map, true};
ghost use Rattle.std.specs.List.Sorted.{IsSorted};
ghost use Rattle.std.specs.Ordering.{on};
ghost use Rattle.workspace_record.specs.Features.{feature_cmp};
ghost use Rattle.guppy_feature_demands.specs.IdViews.{id_view};
ghost use Rattle.guppy_feature_graph.specs.WrappedFilters.{is_listed};

use crate::feature_filter::FeatureFilter;
use crate::feature_graph::FeatureGraph;
use guppy_feature_nodes::FeatureId;

/// Takes what its base takes, and each of these features.
#[derive(Debug, Drop)]
pub struct FeatureIdFilter<'a, B: FeatureFilter> {
    base: B,
    feature_ids: &'a [FeatureId<'a>],
    ascending: bool,
    ghost ordered: { ascending ≡ true → IsSorted (on id_view feature_cmp) feature_ids.now },
}

/// A filter that takes what the base takes, and each of these features. Where they ascend, each is looked
/// up by halving; else all are gone through for each feature that is asked about.
pub fn feature_id_filter<'a, B: FeatureFilter>(
    base: B,
    feature_ids: &'a [FeatureId<'a>],
) -> FeatureIdFilter<'a, B>
    ensures base { result.base ≡ base }
    ensures feature_ids { result.feature_ids.now ≡ feature_ids.entry.now }
{
    let ascending = feature_ids.is_sorted();
    FeatureIdFilter {
        base,
        feature_ids,
        ascending,
    }
}

impl<B: FeatureFilter> FeatureIdFilter<'_, B> {
    fn takes(&self, feature_id: FeatureId<'_>) -> bool
        ensures { result ≡ is_listed (map id_view self.now.feature_ids.now)
            (id_view feature_id.entry) }
    {
        if self.ascending {
            self.feature_ids.binary_search(&feature_id).is_ok()
        } else {
            self.feature_ids.iter().any(|id| *id == feature_id)
        }
    }
}

impl<B: FeatureFilter> FeatureFilter for FeatureIdFilter<'_, B> {
    ghost use Rattle.std.specs.Prelude.{◌≡◌, ◌||◌, Bool, map};
    ghost use Rattle.guppy_feature_demands.specs.IdViews.{id_view};
    ghost use Rattle.guppy_feature_graph.specs.WrappedFilters.{is_listed};

    ghost state = { λ f. B.state f.base };

    ghost steps = { λ f s x answer t. (taken : Bool) × B.steps f.base s x taken t
        × (answer ≡ (taken || is_listed (map id_view f.feature_ids.now) x.1)) };

    ghost can_accept = { λ f. B.can_accept f.base };

    fn accept(&mut self, graph: &FeatureGraph<'_>, feature_id: FeatureId<'_>) -> bool {
        let taken = self.base.accept(graph, feature_id);
        taken || self.takes(feature_id)
    }
}
