//! Filters made of closures.

use crate::feature_filter::FeatureFilter;
use crate::feature_graph::FeatureGraph;
use guppy_feature_nodes::FeatureId;
use std::fmt;

/// A filter that answers as a closure does. The closure's state is not changed by a call.
#[derive(Drop)]
pub struct FeatureFilterFn<F> {
    filter: F,
}

impl<F: Fn(&FeatureGraph<'_>, FeatureId<'_>) -> bool> FeatureFilterFn<F> {
    ghost use Rattle.std.specs.Prelude.{◌≡◌};

    /// The filter that answers as the closure does.
    pub fn new(filter: F) -> FeatureFilterFn<F>
        ensures filter { result.filter ≡ filter }
    {
        FeatureFilterFn { filter }
    }
}

impl<F: Fn(&FeatureGraph<'_>, FeatureId<'_>) -> bool> FeatureFilter for FeatureFilterFn<F> {
    ghost use Rattle.std.specs.Prelude.{◌≡◌, []};
    ghost use Rattle.guppy_feature_graph.specs.FilterClosures.{AnswersFilter};

    ghost state = { λ _. [] };

    ghost steps = { λ f _ x answer t. AnswersFilter F.Fn f.filter x.0 x.1 answer × (t ≡ []) };

    ghost can_accept = { λ f. F.IsAlwaysCallable f.filter };

    fn accept(&mut self, graph: &FeatureGraph<'_>, feature_id: FeatureId<'_>) -> bool {
        (self.filter)(graph, feature_id)
    }
}

impl<F> fmt::Debug for FeatureFilterFn<F> {
    fn fmt<W: fmt::Write>(&self, f: &mut fmt::Formatter<W>) -> fmt::Result {
        f.debug_struct("FeatureFilterFn").finish_non_exhaustive()
    }
}
