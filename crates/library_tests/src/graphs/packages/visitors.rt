//! Visitors whose answers their state decides, or the link that they are shown.

use guppy_package_graph::{PackageLink, PackageLinkContext, PackageLinkVisitor};

/// Follows as many links as are left to it.
#[derive(Drop)]
pub(crate) struct Follows {
    pub(crate) left: usize,
    pub(crate) shown: usize,
}

impl PackageLinkVisitor for Follows {
    ghost use Rattle.std.specs.Prelude.{◌≡◌, ℕ, ◌-◌, ◌∷◌, [], nat_lt};

    ghost state = { λ v. v.left ∷ [] };

    ghost steps = { λ _ s _ answer t. (n : ℕ) × (s ≡ n ∷ []) × (t ≡ (n - 1) ∷ []) × (answer ≡ nat_lt 0 n) };

    fn visit_link(&mut self, _cx: &PackageLinkContext<'_>, _link: PackageLink<'_>) -> bool {
        let accepted = 0 < self.left;
        self.left = self.left.saturating_sub(1);
        self.shown = self.shown.saturating_add(1);
        accepted
    }
}

/// Follows every second link that is shown.
#[derive(Drop)]
pub(crate) struct Alternates {
    pub(crate) accepts: bool,
}

impl PackageLinkVisitor for Alternates {
    ghost use Rattle.std.specs.Prelude.{◌≡◌, ◌∷◌, [], cond, not};

    ghost state = { λ v. cond v.accepts 1 0 ∷ [] };

    ghost steps = { λ _ s _ answer t. (s ≡ cond answer 1 0 ∷ []) × (t ≡ cond answer 0 1 ∷ []) };

    fn visit_link(&mut self, _cx: &PackageLinkContext<'_>, _link: PackageLink<'_>) -> bool {
        let accepted = self.accepts;
        self.accepts = !accepted;
        accepted
    }
}

/// Follows the links on which some line is normal or build.
#[derive(Drop)]
pub(crate) struct FollowsFirm;

impl PackageLinkVisitor for FollowsFirm {
    ghost use Rattle.std.specs.Prelude.{◌≡◌, Some, [], not, slice_get};
    ghost use Rattle.workspace_record.specs.Records.{Link};
    ghost use Rattle.guppy_package_table.specs.LinkRows.{is_dev_only};

    ghost state = { λ _. [] };

    ghost steps = { λ _ s x answer t. (row : Link) × (slice_get x.0.graph.links x.1 ≡ Some row) × (answer ≡ not (is_dev_only row)) × (s ≡ t) };

    fn visit_link(&mut self, _cx: &PackageLinkContext<'_>, link: PackageLink<'_>) -> bool {
        !link.dev_only()
    }
}
