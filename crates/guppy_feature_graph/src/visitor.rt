//! Those who say of each link whether a walk follows it.

ghost use Rattle.std.specs.Prelude.{Bool, List, ℕ};
ghost use Rattle.guppy_package_graph.specs.Visits.{SameSteps};
ghost use Rattle.guppy_feature_graph.specs.ContextViews.{query_of};
ghost use Rattle.guppy_feature_views.specs.Links.{LinkValue};
ghost use Rattle.guppy_feature_graph.specs.Queries.{QueryValue};
ghost use Rattle.guppy_feature_views.specs.Views.{link_view};

use crate::feature_link_context::FeatureLinkContext;
use guppy_feature_views::ConditionalLink;

/// Says of each link that a resolve shows whether the link is followed. Its state is seen as a list of
/// whole numbers; its steps relate the state before, the query with the link, the answer and the state
/// after, and no call changes them.
pub trait FeatureLinkVisitor {
    ghost state: { Self → List ℕ };

    ghost steps: { Self → List ℕ → QueryValue × LinkValue → Bool → List ℕ → Type 0 };

    /// Whether the link is followed.
    fn visit_link(&mut self, cx: &FeatureLinkContext<'_>, link: ConditionalLink<'_>) -> bool
        ensures step { steps self.old (state self.old) (query_of cx.now, link_view link.entry)
            result (state self.new) }
        ensures same { SameSteps (steps self.old) (steps self.new) };
}
