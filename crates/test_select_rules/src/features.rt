//! The features that are on.

ghost use Rattle.std.specs.Prelude.{◌≡◌, ◌↔◌, ◌+◌, ◌<◌, ◌≤◌, IfOk, IsTrue, Contains, length};
ghost use Rattle.std.specs.List.Sorted.{IsStrictlySortedBy};
ghost use Rattle.list_facts.specs.Ascending.{IsAscendingOf};
ghost use Rattle.workspace_record.specs.Features.{FeatureValue, feature_cmp};
ghost use Rattle.feature_account.specs.Accounts.{concluded_set};
ghost use Rattle.feature_account_rules.specs.RuleList.{base_of, named_of, dep_of};
ghost use Rattle.test_select_rules.specs.Digits.{digits};

use crate::counted_features::CountedFeatures;
use crate::search::{finds, finds_counted};
use feature_account::FeatureRef;
use numbered_graph::Looks;
use std::alloc::AllocError;
use std::marker::{Brand, Model};
use std::sync::ledger::{Blank, Ledger};
use workspace_record::Feature;

/// The features that are on, in ascending order, each once.
#[derive(Debug, Drop)]
pub struct FeaturesOn {
    features: Vec<Feature>,
}

impl Model for FeaturesOn {
    ghost use Rattle.std.specs.Prelude.{List};
    ghost use Rattle.std.specs.List.Sorted.{IsStrictlySortedBy};
    ghost use Rattle.workspace_record.specs.Features.{FeatureValue, feature_cmp};

    ghost Value = { List FeatureValue };

    ghost view = { λ on. on.features.items };

    ghost invariant = { λ on. IsStrictlySortedBy feature_cmp on.features.items };
}

impl FeaturesOn {
    /// These features, each once.
    pub fn of(features: Vec<Feature>) -> Result<FeaturesOn, AllocError>
        ensures members { IfOk result (λ on. (f : FeatureValue) → Contains on f
            ↔ Contains features.items f) }
        ensures ascending { IfOk result (λ on. IsStrictlySortedBy feature_cmp on) }
    {
        let features = sorted_features(features)?;
        Ok(FeaturesOn { features })
    }

    /// Whether the feature is on.
    pub fn contains(&self, feature: &Feature) -> bool
        ensures { IsTrue result ↔ Contains self.now feature.now }
    {
        contains_with_blank::<Brand>(self, feature, Blank::new(1))
    }

    /// The same, with a count of the looks that it takes, each of them at a feature that is compared.
    pub fn contains_counted<L: Ledger>(&self, feature: &Feature, looks: &mut Looks<L>) -> bool
        ensures answer { IsTrue result ↔ Contains self.now feature.now }
        ensures looks { looks.new ≤ looks.old + digits (length self.now) }
    {
        let features = CountedFeatures::of(&self.features);
        finds_counted(&features, &FeatureRef::of(feature), looks)
    }

    /// Whether the package's base is on.
    pub fn contains_base(&self, package_id: &str) -> bool
        ensures { result ≡ concluded_set self.now (base_of package_id.now) }
    {
        finds(&self.features, &FeatureRef::base(package_id))
    }

    /// Whether the package's feature of this name is on.
    pub fn contains_named(&self, package_id: &str, name: &str) -> bool
        ensures { result ≡ concluded_set self.now (named_of package_id.now name.now) }
    {
        finds(&self.features, &FeatureRef::named(package_id, name))
    }

    /// Whether the package's optional dependency of this name is on.
    pub fn contains_dep(&self, package_id: &str, name: &str) -> bool
        ensures { result ≡ concluded_set self.now (dep_of package_id.now name.now) }
    {
        finds(&self.features, &FeatureRef::dep(package_id, name))
    }

    /// The features in order.
    pub fn as_slice(&self) -> &[Feature]
        ensures value { result.now ≡ self.now }
        ensures ascending { IsStrictlySortedBy feature_cmp self.now }
    {
        self.features.as_slice()
    }
}

fn contains_with_blank<L: Ledger>(on: &FeaturesOn, feature: &Feature, blank: Blank) -> bool
    requires name { blank.name ≡ L.name }
    requires parts { blank.parts ≡ L.parts }
    requires some { 0 < blank.parts }
    ensures { IsTrue result ↔ Contains on.now feature.now }
{
    let mut looks = Looks::<L>::new(blank);
    on.contains_counted(feature, &mut looks)
}

fn sorted_features(mut features: Vec<Feature>) -> Result<Vec<Feature>, AllocError>
    ensures { IfOk result (λ v. IsAscendingOf feature_cmp features.items v.items) }
{
    features.sort()?;
    features.dedup();
    Ok(features)
}
