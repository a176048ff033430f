//! Filters that add features by their names.

ghost use Rattle.std.specs.Prelude.{◌≡◌, map};
ghost use Rattle.guppy_feature_demands.specs.IdViews.{id_view};
ghost use Rattle.guppy_feature_graph.specs.WrappedFilters.{is_named_so};

use crate::feature_filter::FeatureFilter;
use crate::feature_graph::FeatureGraph;
use guppy_feature_nodes::{FeatureId, FeatureLabel};

/// Takes what its base takes, and each feature that a package names so.
#[derive(Debug, Drop)]
pub struct NamedFeatureFilter<'a, B: FeatureFilter> {
    base: B,
    names: &'a [&'a str],
}

/// A filter that takes what the base takes, and each feature that some package names so.
pub fn named_feature_filter<'a, B: FeatureFilter>(
    base: B,
    names: &'a [&'a str],
) -> NamedFeatureFilter<'a, B>
    ensures base { result.base ≡ base }
    ensures names { result.names.now ≡ names.entry.now }
{
    NamedFeatureFilter { base, names }
}

impl<B: FeatureFilter> NamedFeatureFilter<'_, B> {
    fn takes(&self, feature_id: FeatureId<'_>) -> bool
        ensures { result ≡ is_named_so (map (λ n. n.now) self.now.names.now)
            (id_view feature_id.entry).label }
    {
        match feature_id.label() {
            FeatureLabel::Named(name) => self.names.iter().any(|n| *n == name),
            FeatureLabel::Base | FeatureLabel::OptionalDependency(_) => false,
        }
    }
}

impl<B: FeatureFilter> FeatureFilter for NamedFeatureFilter<'_, B> {
    ghost use Rattle.std.specs.Prelude.{◌≡◌, ◌||◌, Bool, map};
    ghost use Rattle.guppy_feature_demands.specs.IdViews.{id_view};
    ghost use Rattle.guppy_feature_graph.specs.WrappedFilters.{is_named_so};

    ghost state = { λ f. B.state f.base };

    ghost steps = { λ f s x answer t. (taken : Bool) × B.steps f.base s x taken t
        × (answer ≡ (taken || is_named_so (map (λ n. n.now) f.names.now) x.1.label)) };

    ghost can_accept = { λ f. B.can_accept f.base };

    fn accept(&mut self, graph: &FeatureGraph<'_>, feature_id: FeatureId<'_>) -> bool {
        let taken = self.base.accept(graph, feature_id);
        taken || self.takes(feature_id)
    }
}
