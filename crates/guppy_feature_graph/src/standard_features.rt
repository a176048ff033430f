//! The filters for no features, the default ones and all.

ghost use Rattle.std.specs.Prelude.{◌↔◌, IsTrue};
ghost use Rattle.guppy_feature_demands.specs.IdViews.{id_view};
ghost use Rattle.guppy_feature_graph.specs.StandardFilters.{Accepts, IsDefaultFeature};
ghost use Rattle.guppy_feature_graph.specs.Views.{feature_graph_of};

use crate::feature_filter::FeatureFilter;
use crate::feature_graph::FeatureGraph;
use guppy_feature_nodes::FeatureId;

/// The features that Cargo switches on by its own options.
#[derive(Clone, Copy, Debug, PartialEq, Eq)]
pub enum StandardFeatures {
    /// Packages alone.
    None,
    /// Packages and their default features.
    Default,
    /// All features.
    All,
}

impl StandardFeatures {
    /// All of them.
    pub const VALUES: &'static [Self; 3] = &[
        StandardFeatures::None,
        StandardFeatures::Default,
        StandardFeatures::All,
    ];

    fn accepts(self, graph: &FeatureGraph<'_>, feature_id: FeatureId<'_>) -> bool
        ensures { Accepts self (feature_graph_of graph.now) (id_view feature_id.entry) result }
    {
        match self {
            StandardFeatures::None => feature_id.is_base(),
            StandardFeatures::Default => { feature_id.is_base() || is_default(graph, feature_id) }
            StandardFeatures::All => true,
        }
    }
}

impl FeatureFilter for StandardFeatures {
    ghost use Rattle.std.specs.Prelude.{◌≡◌, [], ⊤};
    ghost use Rattle.guppy_feature_graph.specs.StandardFilters.{Accepts};

    ghost state = { λ _. [] };

    ghost steps = { λ f _ x b t. Accepts f x.0 x.1 b × (t ≡ []) };

    ghost can_accept = { λ _. ⊤ };

    fn accept(&mut self, graph: &FeatureGraph<'_>, feature_id: FeatureId<'_>) -> bool {
        self.accepts(graph, feature_id)
    }
}

fn is_default(graph: &FeatureGraph<'_>, feature_id: FeatureId<'_>) -> bool
    ensures { IsTrue result ↔ IsDefaultFeature (feature_graph_of graph.now)
        (id_view feature_id.entry) }
{
    match graph.is_default_feature(feature_id) {
        Ok(answer) => answer,
        Err(_) => false,
    }
}
