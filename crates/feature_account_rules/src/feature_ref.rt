//! Features whose texts are lent.

ghost use Rattle.std.specs.Prelude.{◌≡◌, IfOk};
ghost use Rattle.workspace_record.specs.Features.{Base, Named, Dep, label_cmp, label_eq, label_kind, label_name};
ghost use Rattle.feature_account_rules.specs.LentLabels.{lent_label_view};

use std::alloc::{AllocError, Global};
use std::cmp::Ordering;
use std::fmt;
use std::hash::{Hash, Hasher};
use std::marker::Model;
use workspace_record::{Feature, Label};

/// What a lent feature is of its package, as `Label` has it.
#[derive(Clone, Copy)]
enum LentLabel<'a> {
    Base,
    Named(&'a str),
    Dep(&'a str),
}

impl<'a> LentLabel<'a> {
    fn is(self, other: LentLabel<'_>) -> bool
        ensures { result ≡ label_eq (lent_label_view self.entry) (lent_label_view other.entry) }
    {
        self.kind() == other.kind() && self.name() == other.name()
    }

    fn compare(self, other: LentLabel<'_>) -> Ordering
        ensures { result ≡ label_cmp (lent_label_view self.entry) (lent_label_view other.entry) }
    {
        match self.kind().cmp(&other.kind()) {
            Ordering::Equal => self.name().cmp(other.name()),
            order => order,
        }
    }

    // The place of its kind in the order of labels.
    fn kind(self) -> u8
        ensures { result ≡ label_kind (lent_label_view self.entry) }
    {
        match self {
            LentLabel::Base => 0,
            LentLabel::Named(_) => 1,
            LentLabel::Dep(_) => 2,
        }
    }

    // Its name; that of a package itself is empty.
    fn name(self) -> &'a str
        ensures { result.now ≡ label_name (lent_label_view self.entry) }
    {
        match self {
            LentLabel::Base => "",
            LentLabel::Named(name) | LentLabel::Dep(name) => name,
        }
    }
}

/// A feature of a package, whose texts are lent. In contracts it is the feature.
#[derive(Drop)]
pub struct FeatureRef<'a> {
    package: &'a str,
    label: LentLabel<'a>,
}

impl fmt::Debug for FeatureRef<'_> {
    fn fmt<W: fmt::Write>(&self, f: &mut fmt::Formatter<W>) -> fmt::Result {
        f.debug_struct("FeatureRef")
            .field("package", &self.package)
            .field("name", &self.label.name())
            .finish_non_exhaustive()
    }
}

impl<'a> Model for FeatureRef<'a> {
    ghost use Rattle.workspace_record.specs.Features.{FeatureValue};
    ghost use Rattle.feature_account_rules.specs.LentLabels.{lent_label_view};

    ghost Value = { FeatureValue };

    ghost view = { λ f. record { package_id = f.package.now; label = lent_label_view f.label } };
}

impl PartialEq for FeatureRef<'_> {
    ghost use Rattle.workspace_record.specs.Features.{feature_eq, features_decide};
    ghost use Rattle.workspace_record.specs.Equality.{equivalence};
    ghost use Rattle.std.specs.Cmp.{partial_equiv_from_equiv};

    ghost eq = { feature_eq };

    ghost laws = { partial_equiv_from_equiv (equivalence features_decide) };

    fn eq(&self, other: &Self) -> bool {
        self.package == other.package && self.label.is(other.label)
    }
}

impl Eq for FeatureRef<'_> {
    ghost use Rattle.workspace_record.specs.Features.{features_decide};
    ghost use Rattle.workspace_record.specs.Equality.{equivalence};

    ghost laws = { equivalence features_decide };
}

impl PartialOrd for FeatureRef<'_> {
    ghost use Rattle.std.specs.Ordering.{as_partial_cmp};
    ghost use Rattle.workspace_record.specs.Features.{feature_cmp, features_in_order};

    ghost partial_cmp = { as_partial_cmp feature_cmp };

    ghost laws = { features_in_order };

    fn partial_cmp(&self, other: &Self) -> Option<Ordering> {
        Some(self.cmp(other))
    }
}

impl Ord for FeatureRef<'_> {
    ghost use Rattle.std.proofs.Common.{refl};
    ghost use Rattle.workspace_record.specs.Features.{feature_cmp, feature_cmp_total, feature_ties};

    ghost cmp = { feature_cmp };

    ghost total = { feature_cmp_total };

    ghost matches_partial_cmp = { λ a b. refl };

    ghost matches_eq = { feature_ties };

    fn cmp(&self, other: &Self) -> Ordering {
        match self.package.cmp(other.package) {
            Ordering::Equal => self.label.compare(other.label),
            order => order,
        }
    }
}

impl Hash for FeatureRef<'_> {
    ghost use Rattle.workspace_record.specs.Features.{feature_writes, same_feature_writes};

    ghost hash_input = { feature_writes };

    ghost respects_eq = { same_feature_writes };

    fn hash<H: Hasher>(&self, state: &mut H) {
        self.package.hash(state);
        match self.label {
            LentLabel::Base => state.write_u8(0),
            LentLabel::Named(name) => {
                state.write_u8(1);
                name.hash(state);
            }
            LentLabel::Dep(name) => {
                state.write_u8(2);
                name.hash(state);
            }
        }
    }
}

impl<'a> FeatureRef<'a> {
    /// The feature, which lends its texts.
    pub fn of(feature: &'a Feature) -> FeatureRef<'a>
        ensures lent { result ≡ feature.entry.now }
    {
        let id = feature.package.as_str();
        match &feature.label {
            Label::Base => FeatureRef::base(id),
            Label::Named(name) => FeatureRef::named(id, name.as_str()),
            Label::Dep(name) => FeatureRef::dep(id, name.as_str()),
        }
    }

    /// The package itself.
    pub fn base(id: &'a str) -> FeatureRef<'a>
        ensures feature { result ≡ record { package_id = id.entry.now; label = Base } }
    {
        let label = LentLabel::Base;
        FeatureRef { package: id, label }
    }

    /// The package's feature of this name.
    pub fn named(id: &'a str, name: &'a str) -> FeatureRef<'a>
        ensures feature { result ≡ record {
          package_id = id.entry.now;
          label = Named name.entry.now;
        } }
    {
        let label = LentLabel::Named(name);
        FeatureRef { package: id, label }
    }

    /// The package's optional dependency of this name.
    pub fn dep(id: &'a str, name: &'a str) -> FeatureRef<'a>
        ensures feature { result ≡ record {
          package_id = id.entry.now;
          label = Dep name.entry.now;
        } }
    {
        let label = LentLabel::Dep(name);
        FeatureRef { package: id, label }
    }

    /// The same feature, with the same texts.
    pub fn again(&self) -> FeatureRef<'a>
        ensures same { result ≡ self.now }
    {
        let FeatureRef { package, label } = self;
        FeatureRef {
            package: *package,
            label: *label,
        }
    }

    /// An equal value in memory of its own.
    pub fn copy(&self, alloc: Global) -> Result<Feature, AllocError>
        ensures copied { IfOk result (λ f. f ≡ self.now) }
    {
        match self.label {
            LentLabel::Base => Feature::base(alloc, self.package),
            LentLabel::Named(name) => Feature::named(alloc, self.package, name),
            LentLabel::Dep(name) => Feature::dep(alloc, self.package, name),
        }
    }
}

/// A copy of each feature, in order.
pub(crate) fn copies_of(
    alloc: Global,
    features: &[FeatureRef<'_>],
) -> Result<Vec<Feature>, AllocError>
    ensures { IfOk result (λ v. v.items ≡ features.now) }
{
    let mut copies = Vec::with_capacity(alloc, features.len())?;
    for feature in features {
        copies.push(feature.copy(alloc)?)?;
    }
    Ok(copies)
}
