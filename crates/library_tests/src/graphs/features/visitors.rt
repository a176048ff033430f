//! Visitors whose answers their state alone decides.

use guppy_feature_graph::{ConditionalLink, FeatureLinkContext, FeatureLinkVisitor};

/// Follows as many links as are left to it.
#[derive(Drop)]
pub(crate) struct Follows {
    pub(crate) left: usize,
    pub(crate) shown: usize,
}

impl FeatureLinkVisitor for Follows {
    ghost use Rattle.std.specs.Prelude.{◌≡◌, ℕ, ◌-◌, ◌∷◌, [], nat_lt};

    ghost state = { λ v. v.left ∷ [] };

    ghost steps = { λ _ s _ answer t. (n : ℕ) × (s ≡ n ∷ []) × (t ≡ (n - 1) ∷ []) × (answer ≡ nat_lt 0 n) };

    fn visit_link(&mut self, _cx: &FeatureLinkContext<'_>, _link: ConditionalLink<'_>) -> bool {
        let accepted = 0 < self.left;
        self.left = self.left.saturating_sub(1);
        self.shown = self.shown.saturating_add(1);
        accepted
    }
}

/// Follows the links that optional lines declare, by what it is shown alone.
#[derive(Drop)]
pub(crate) struct FollowsOptional;

impl FeatureLinkVisitor for FollowsOptional {
    ghost use Rattle.std.specs.Prelude.{◌≡◌, []};
    ghost use Rattle.guppy_feature_demands.specs.Kinds.{has_optional};

    ghost state = { λ _. [] };

    ghost steps = { λ _ _ shown answer t. (answer ≡ has_optional shown.1.declarations) × (t ≡ []) };

    fn visit_link(&mut self, _cx: &FeatureLinkContext<'_>, link: ConditionalLink<'_>) -> bool {
        link.declarations().includes_optional()
    }
}
