//! Keys by which features are found in a hash table.

ghost use Rattle.std.specs.Prelude.{◌≡◌};
ghost use Rattle.workspace_record.specs.Features.{Base, Named, Dep};
ghost use Rattle.guppy_feature_demands.specs.IdViews.{id_view};
ghost use Rattle.guppy_feature_demands.specs.HashedViews.{hashed_view};

use crate::feature_id::FeatureId;
use crate::feature_label::FeatureLabel;
use crate::hashed_id::HashedId;
use std::hash::{Hash, Hasher};

/// A feature of the package with this id, whether there is one or not, with the id's hash at hand.
#[derive(Clone, Copy)]
pub(crate) struct FeatureKey<'g> {
    pub id: HashedId<'g>,
    pub label: FeatureLabel<'g>,
}

impl PartialEq for FeatureKey<'_> {
    ghost use Rattle.std.specs.Ordering.{on};
    ghost use Rattle.std.specs.Cmp.{partial_equiv_from_equiv};
    ghost use Rattle.workspace_record.specs.Features.{feature_eq};
    ghost use Rattle.guppy_feature_demands.specs.HashedViews.{hashed_view, names_equivalence};

    ghost eq = { on hashed_view feature_eq };

    ghost laws = { partial_equiv_from_equiv names_equivalence };

    fn eq(&self, other: &Self) -> bool {
        self.label == other.label && self.id.is(other.id)
    }
}

impl Eq for FeatureKey<'_> {
    ghost use Rattle.guppy_feature_demands.specs.HashedViews.{names_equivalence};

    ghost laws = { names_equivalence };
}

impl Hash for FeatureKey<'_> {
    ghost use Rattle.guppy_feature_demands.specs.HashedViews.{name_writes, same_name_writes};

    ghost hash_input = { name_writes };

    ghost respects_eq = { same_name_writes };

    fn hash<H: Hasher>(&self, state: &mut H) {
        state.write_u64(self.id.hash);
        match self.label {
            FeatureLabel::Base => {}
            FeatureLabel::Named(name) => state.write(name.as_bytes()),
            FeatureLabel::OptionalDependency(name) => {
                state.write_u8(2);
                state.write(name.as_bytes());
            }
        }
    }
}

impl<'g> FeatureKey<'g> {
    /// The name of a feature, whose package may be the one with this id.
    pub(crate) fn of(last: HashedId<'g>, feature: FeatureId<'g>) -> FeatureKey<'g>
        ensures { hashed_view result ≡ id_view feature.entry }
    {
        let label = feature.label();
        let id = last.or_of(feature.package_id().repr());
        FeatureKey { id, label }
    }

    /// The feature that stands for the package itself.
    pub(crate) fn base(id: HashedId<'g>) -> FeatureKey<'g>
        ensures { hashed_view result ≡ record { package_id = id.entry.text.now; label = Base } }
    {
        let label = FeatureLabel::Base;
        FeatureKey { id, label }
    }

    /// A feature that the package's manifest names.
    pub(crate) fn named(id: HashedId<'g>, name: &'g str) -> FeatureKey<'g>
        ensures { hashed_view result ≡ record {
          package_id = id.entry.text.now;
          label = Named name.entry.now;
        } }
    {
        let label = FeatureLabel::Named(name);
        FeatureKey { id, label }
    }

    /// An optional dependency of the package.
    pub(crate) fn dep(id: HashedId<'g>, name: &'g str) -> FeatureKey<'g>
        ensures { hashed_view result ≡ record {
          package_id = id.entry.text.now;
          label = Dep name.entry.now;
        } }
    {
        let label = FeatureLabel::OptionalDependency(name);
        FeatureKey { id, label }
    }
}
