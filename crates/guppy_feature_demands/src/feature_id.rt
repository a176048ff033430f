//! The ids of features, with guppy's names.

ghost use Rattle.std.specs.Prelude.{◌≡◌};
ghost use Rattle.workspace_record.specs.Features.{Base, Named, Dep};
ghost use Rattle.guppy_feature_demands.specs.Kinds.{kind_of, is_base_kind, is_named_kind, is_dep_kind};
ghost use Rattle.guppy_feature_demands.specs.LabelViews.{label_view};
ghost use Rattle.guppy_feature_demands.specs.IdViews.{id_view};

use crate::feature_label::FeatureLabel;
use guppy_package_parts::PackageId;
use std::cmp::Ordering;
use std::fmt;
use std::hash::{Hash, Hasher};

/// A feature of a package. Features are ordered by package id, and then by label.
#[derive(Clone, Copy, Debug)]
pub struct FeatureId<'g> {
    package_id: &'g PackageId,
    label: FeatureLabel<'g>,
}

impl PartialEq for FeatureId<'_> {
    ghost use Rattle.std.specs.Ordering.{on};
    ghost use Rattle.std.specs.Cmp.{partial_equiv_from_equiv};
    ghost use Rattle.workspace_record.specs.Features.{feature_eq};
    ghost use Rattle.guppy_feature_demands.specs.IdViews.{id_view, ids_equivalence};

    ghost eq = { on id_view feature_eq };

    ghost laws = { partial_equiv_from_equiv ids_equivalence };

    fn eq(&self, other: &Self) -> bool {
        self.package_id == other.package_id && self.label == other.label
    }
}

impl Eq for FeatureId<'_> {
    ghost use Rattle.guppy_feature_demands.specs.IdViews.{ids_equivalence};

    ghost laws = { ids_equivalence };
}

impl PartialOrd for FeatureId<'_> {
    ghost use Rattle.std.specs.Ordering.{on, as_partial_cmp};
    ghost use Rattle.workspace_record.specs.Features.{feature_cmp};
    ghost use Rattle.guppy_feature_demands.specs.IdViews.{id_view, ids_in_order};

    ghost partial_cmp = { as_partial_cmp (on id_view feature_cmp) };

    ghost laws = { ids_in_order };

    fn partial_cmp(&self, other: &Self) -> Option<Ordering> {
        Some(self.cmp(other))
    }
}

impl Ord for FeatureId<'_> {
    ghost use Rattle.std.proofs.Common.{refl};
    ghost use Rattle.std.specs.Ordering.{on};
    ghost use Rattle.workspace_record.specs.Features.{feature_cmp, feature_ties};
    ghost use Rattle.guppy_feature_demands.specs.IdViews.{id_view, ids_total};

    ghost cmp = { on id_view feature_cmp };

    ghost total = { ids_total };

    ghost matches_partial_cmp = { λ a b. refl };

    ghost matches_eq = { λ a b. feature_ties (id_view a) (id_view b) };

    fn cmp(&self, other: &Self) -> Ordering {
        match self.package_id.cmp(other.package_id) {
            Ordering::Equal => self.label.cmp(&other.label),
            order => order,
        }
    }
}

impl Hash for FeatureId<'_> {
    ghost use Rattle.workspace_record.specs.Features.{feature_writes, same_feature_writes};
    ghost use Rattle.guppy_feature_demands.specs.IdViews.{id_view};

    ghost hash_input = { λ f. feature_writes (id_view f) };

    ghost respects_eq = { λ a b. same_feature_writes (id_view a) (id_view b) };

    fn hash<H: Hasher>(&self, state: &mut H) {
        self.package_id.hash(state);
        self.label.hash(state);
    }
}

impl fmt::Display for FeatureId<'_> {
    ghost use Rattle.std.specs.Prelude.{Some};
    ghost use Rattle.guppy_feature_demands.specs.Printing.{feature_text};
    ghost use Rattle.guppy_feature_demands.specs.IdViews.{id_view};

    ghost output = { λ f. Some (feature_text (id_view f)) };

    fn fmt<W: fmt::Write>(&self, f: &mut fmt::Formatter<W>) -> fmt::Result {
        self.package_id.fmt(f)?;
        f.write_str("/")?;
        self.label.fmt(f)
    }
}

impl<'g> From<(&'g PackageId, FeatureLabel<'g>)> for FeatureId<'g> {
    ghost use Rattle.std.specs.Prelude.{◌≡◌};
    ghost use Rattle.guppy_feature_demands.specs.LabelViews.{label_view};
    ghost use Rattle.guppy_feature_demands.specs.IdViews.{id_view};

    ghost from_gives = { λ parts f.
        id_view f ≡ record { package_id = parts.0.now; label = label_view parts.1 } };

    fn from(parts: (&'g PackageId, FeatureLabel<'g>)) -> FeatureId<'g> {
        FeatureId::new(parts.0, parts.1)
    }
}

impl<'g> FeatureId<'g> {
    /// The feature of a package with this label.
    pub fn new(package_id: &'g PackageId, label: FeatureLabel<'g>) -> FeatureId<'g>
        ensures value { id_view result ≡ record {
          package_id = package_id.entry.now;
          label = label_view label.entry;
        } }
    {
        FeatureId { package_id, label }
    }

    /// The feature that a package's manifest names so.
    pub fn named(package_id: &'g PackageId, feature_name: &'g str) -> FeatureId<'g>
        ensures value { id_view result ≡ record {
          package_id = package_id.entry.now;
          label = Named feature_name.entry.now;
        } }
    {
        FeatureId::new(package_id, FeatureLabel::Named(feature_name))
    }

    /// The feature of a package that stands for the optional dependency with this name.
    pub fn optional_dependency(package_id: &'g PackageId, dep_name: &'g str) -> FeatureId<'g>
        ensures value { id_view result ≡ record {
          package_id = package_id.entry.now;
          label = Dep dep_name.entry.now;
        } }
    {
        FeatureId::new(package_id, FeatureLabel::OptionalDependency(dep_name))
    }

    /// The feature that stands for the package itself.
    pub fn base(package_id: &'g PackageId) -> FeatureId<'g>
        ensures value { id_view result ≡ record {
          package_id = package_id.entry.now;
          label = Base;
        } }
    {
        FeatureId::new(package_id, FeatureLabel::Base)
    }

    /// The id of the feature's package.
    pub fn package_id(&self) -> &'g PackageId
        ensures value { result.now ≡ (id_view self.now).package_id }
    {
        self.package_id
    }

    /// The feature's label.
    pub fn label(&self) -> FeatureLabel<'g>
        ensures value { label_view result ≡ (id_view self.now).label }
    {
        self.label
    }

    /// Whether the feature stands for its package.
    pub fn is_base(&self) -> bool
        ensures answer { result ≡ is_base_kind (kind_of (id_view self.now).label) }
    {
        self.label.kind().is_base()
    }

    /// Whether the feature stands for an optional dependency.
    pub fn is_optional_dependency(self) -> bool
        ensures answer { result ≡ is_dep_kind (kind_of (id_view self.entry).label) }
    {
        self.label.kind().is_optional_dependency()
    }

    /// Whether the package's manifest names the feature.
    pub fn is_named(self) -> bool
        ensures answer { result ≡ is_named_kind (kind_of (id_view self.entry).label) }
    {
        self.label.kind().is_named()
    }
}
