//! Where a link starts.

ghost use Rattle.std.specs.Prelude.{◌≡◌};
ghost use Rattle.guppy_feature_views.specs.Views.{link_view};
ghost use Rattle.test_select_feature_laws.specs.Verdicts.{starts_in_workspace};

use guppy_feature_graph::ConditionalLink;

/// Whether the feature that leads on is of a member of the workspace.
pub(crate) fn starts_in_workspace(link: ConditionalLink<'_>) -> bool
    ensures { result ≡ starts_in_workspace (link_view link.entry) }
{
    link.from().package().in_workspace()
}
