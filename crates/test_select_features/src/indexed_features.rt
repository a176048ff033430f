//! The features that are on, with the packages among them found at once.

ghost use Rattle.std.specs.Prelude.{◌≡◌, ◌||◌, IfOk, OnOk};
ghost use Rattle.workspace_record.specs.Features.{feature_eq};
ghost use Rattle.workspace_record.specs.Records.{Text};
ghost use Rattle.workspace_record.specs.TextSets.{has_text};
ghost use Rattle.feature_account.specs.Accounts.{concluded_set};
ghost use Rattle.feature_account_rules.specs.RuleList.{base_of, dep_of};
ghost use Rattle.test_select_features.specs.IndexedFeatures.{FindsPackages};

use indexmap::IndexSet;
use std::alloc::{AllocError, Global};
use std::marker::Model;
use test_select_rules::FeaturesOn;
use workspace_record::{Feature, Label};

// Ids of packages begin alike, so a search by halving reads each of them far; lines of optional dependencies
// are few, and found by halving.
/// The features that are on, and the ids of the packages that are, in a set that finds them at once:
/// most lines start at a package. In contracts it is the features.
pub(crate) struct IndexedFeatures<'a> {
    features: &'a FeaturesOn,
    packages: IndexSet<&'a str>,
}

// Written out, so that a function that lets one go takes one step.
impl Drop for IndexedFeatures<'_> {
    fn drop(self) {
        let IndexedFeatures {
            features: _,
            packages: _,
        } = self;
    }
}

impl<'a> Model for IndexedFeatures<'a> {
    ghost use Rattle.std.specs.Prelude.{List};
    ghost use Rattle.workspace_record.specs.Features.{FeatureValue};
    ghost use Rattle.test_select_features.specs.IndexedFeatures.{FindsPackages};

    ghost Value = { List FeatureValue };

    ghost view = { λ f. f.features.now };

    ghost invariant = { λ f. FindsPackages f.features.now f.packages };
}

impl<'a> IndexedFeatures<'a> {
    /// Takes time in proportion to the features.
    pub(crate) fn of(
        alloc: Global,
        features: &'a FeaturesOn,
    ) -> Result<IndexedFeatures<'a>, AllocError>
        ensures { IfOk result (λ f. f ≡ features.entry.now) }
    {
        let packages = packages_on(alloc, features.as_slice())?;
        Ok(IndexedFeatures { features, packages })
    }

    /// Whether the package's base is on.
    pub(crate) fn contains_base(&self, package_id: &str) -> bool
        ensures { result ≡ concluded_set self.now (base_of package_id.now) }
    {
        self.packages.contains(&package_id)
    }

    /// Whether the package's optional dependency of this name is on.
    pub(crate) fn contains_dep(&self, package_id: &str, name: &str) -> bool
        ensures { result ≡ concluded_set self.now (dep_of package_id.now name.now) }
    {
        self.features.contains_dep(package_id, name)
    }
}

/// The ids of the packages whose bases are among the features.
fn packages_on<'a>(alloc: Global, features: &'a [Feature]) -> Result<IndexSet<&'a str>, AllocError>
    ensures { IfOk result (FindsPackages features.entry.now) }
{
    let mut packages = IndexSet::new(alloc);
    for feature in features {
        insert_base(&mut packages, feature)?;
    }
    Ok(packages)
}

/// Adds the feature's package if the feature is its base.
fn insert_base<'a>(packages: &mut IndexSet<&'a str>, feature: &'a Feature) -> Result<(), AllocError>
    ensures { OnOk result ((x : Text)
        → has_text packages.new x
        ≡ (has_text packages.old x || feature_eq (base_of x) feature.entry.now)) }
{
    match &feature.label {
        Label::Base => {
            packages.insert(feature.package.as_str())?;
        }
        Label::Named(_) | Label::Dep(_) => {}
    }
    Ok(())
}
