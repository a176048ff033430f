//! Those who say of each link whether a walk follows it.

ghost use Rattle.std.specs.Prelude.{◌≡◌, Bool, List, ℕ};
ghost use Rattle.guppy_package_graph.specs.ContextViews.{query_of};
ghost use Rattle.guppy_package_graph.specs.Queries.{QueryValue};
ghost use Rattle.guppy_package_graph.specs.Views.{link_graph_of, number_of};
ghost use Rattle.guppy_package_graph.specs.Visits.{SameSteps};

use crate::package_link::PackageLink;
use crate::package_link_context::PackageLinkContext;

/// Says of each link that a resolve shows whether the link is followed. Its state is seen as a list of
/// whole numbers; its steps relate the state before, the link with its query, the answer and the state
/// after, and no call changes them.
pub trait PackageLinkVisitor {
    ghost state: { Self → List ℕ };

    ghost steps: { Self → List ℕ → QueryValue × ℕ → Bool → List ℕ → Type 0 };

    /// Whether the link, which is one of the query's graph, is followed.
    fn visit_link(&mut self, cx: &PackageLinkContext<'_>, link: PackageLink<'_>) -> bool
        requires of_graph { link_graph_of link ≡ (query_of cx.now).graph }
        ensures step { steps self.old (state self.old) (query_of cx.now, number_of link.entry)
            result (state self.new) }
        ensures same { SameSteps (steps self.old) (steps self.new) };
}
