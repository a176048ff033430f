//! Features by package id and label.

ghost use Rattle.std.specs.Prelude.{◌≡◌, IfOk};
ghost use Rattle.workspace_record.specs.Features.{Base, Named, Dep};

use crate::label::Label;
use std::alloc::{AllocError, Global};
use std::cmp::Ordering;
use std::hash::{Hash, Hasher};
use std::marker::Model;

/// A feature of a package, which is named by its id. Features are ordered by package id, and then by
/// label.
#[derive(Debug, Drop)]
pub struct Feature {
    pub package: String,
    pub label: Label,
}

impl Model for Feature {
    ghost use Rattle.std.specs.Prelude.{string_bytes};
    ghost use Rattle.workspace_record.specs.Features.{FeatureValue};
    ghost use Rattle.workspace_record.specs.LabelView.{label_view};

    ghost Value = { FeatureValue };

    ghost view = { λ f. record { package_id = string_bytes f.package; label = label_view f.label } };
}

impl PartialEq for Feature {
    ghost use Rattle.workspace_record.specs.Features.{feature_eq, features_decide};
    ghost use Rattle.workspace_record.specs.Equality.{equivalence};
    ghost use Rattle.std.specs.Cmp.{partial_equiv_from_equiv};

    ghost eq = { feature_eq };

    ghost laws = { partial_equiv_from_equiv (equivalence features_decide) };

    fn eq(&self, other: &Feature) -> bool {
        self.package == other.package && self.label == other.label
    }
}

impl Eq for Feature {
    ghost use Rattle.workspace_record.specs.Features.{features_decide};
    ghost use Rattle.workspace_record.specs.Equality.{equivalence};

    ghost laws = { equivalence features_decide };
}

impl PartialOrd for Feature {
    ghost use Rattle.std.specs.Ordering.{as_partial_cmp};
    ghost use Rattle.workspace_record.specs.Features.{feature_cmp, features_in_order};

    ghost partial_cmp = { as_partial_cmp feature_cmp };

    ghost laws = { features_in_order };

    fn partial_cmp(&self, other: &Feature) -> Option<Ordering> {
        Some(self.cmp(other))
    }
}

impl Ord for Feature {
    ghost use Rattle.std.proofs.Common.{refl};
    ghost use Rattle.workspace_record.specs.Features.{feature_cmp, feature_cmp_total, feature_ties};

    ghost cmp = { feature_cmp };

    ghost total = { feature_cmp_total };

    ghost matches_partial_cmp = { λ a b. refl };

    ghost matches_eq = { feature_ties };

    fn cmp(&self, other: &Feature) -> Ordering {
        match self.package.cmp(&other.package) {
            Ordering::Equal => self.label.cmp(&other.label),
            order => order,
        }
    }
}

impl Hash for Feature {
    ghost use Rattle.workspace_record.specs.Features.{feature_writes, same_feature_writes};

    ghost hash_input = { feature_writes };

    ghost respects_eq = { same_feature_writes };

    fn hash<H: Hasher>(&self, state: &mut H) {
        self.package.hash(state);
        match &self.label {
            Label::Base => state.write_u8(0),
            Label::Named(name) => {
                state.write_u8(1);
                name.hash(state);
            }
            Label::Dep(name) => {
                state.write_u8(2);
                name.hash(state);
            }
        }
    }
}

impl Feature {
    /// The feature of a package that is on wherever the package is.
    pub fn base(alloc: Global, package_id: &str) -> Result<Feature, AllocError>
        ensures { IfOk result (λ f. f ≡ record { package_id = package_id.now; label = Base }) }
    {
        let package = String::from_str(alloc, package_id)?;
        Ok(Feature {
            package,
            label: Label::Base,
        })
    }

    /// The feature that a package's manifest names.
    pub fn named(alloc: Global, package_id: &str, name: &str) -> Result<Feature, AllocError>
        ensures { IfOk result (λ f. f ≡ record {
          package_id = package_id.now;
          label = Named name.now;
        }) }
    {
        let package = String::from_str(alloc, package_id)?;
        let label = Label::Named(String::from_str(alloc, name)?);
        Ok(Feature { package, label })
    }

    /// The feature of a package that stands for one of its optional dependencies.
    pub fn dep(alloc: Global, package_id: &str, name: &str) -> Result<Feature, AllocError>
        ensures { IfOk result (λ f. f ≡ record {
          package_id = package_id.now;
          label = Dep name.now;
        }) }
    {
        let package = String::from_str(alloc, package_id)?;
        let label = Label::Dep(String::from_str(alloc, name)?);
        Ok(Feature { package, label })
    }

    /// An equal value in memory of its own.
    pub fn copy(&self, alloc: Global) -> Result<Feature, AllocError>
        ensures { IfOk result (λ f. f ≡ self.now) }
    {
        let package = String::from_str(alloc, self.package.as_str())?;
        let label = self.label.copy(alloc)?;
        Ok(Feature { package, label })
    }
}
