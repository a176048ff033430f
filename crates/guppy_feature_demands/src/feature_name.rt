//! Features by the texts of their packages and labels.

ghost use Rattle.std.specs.Prelude.{◌≡◌};
ghost use Rattle.workspace_record.specs.Features.{Base, Named, Dep};
ghost use Rattle.guppy_feature_demands.specs.HashedViews.{hashed_view};
ghost use Rattle.guppy_feature_demands.specs.NameViews.{name_view};

use crate::feature_key::FeatureKey;
use crate::feature_label::FeatureLabel;
use crate::hashed_id::HashedId;

/// A feature of the package with this id, whether there is one or not.
#[derive(Clone, Copy, Debug)]
pub struct FeatureName<'a> {
    pub package_id: &'a str,
    pub label: FeatureLabel<'a>,
}

impl<'a> FeatureName<'a> {
    /// The feature that stands for the package itself.
    pub fn base(package_id: &'a str) -> FeatureName<'a>
        ensures value { name_view result ≡ record {
          package_id = package_id.entry.now;
          label = Base;
        } }
    {
        let label = FeatureLabel::Base;
        FeatureName { package_id, label }
    }

    /// A feature that the package's manifest names.
    pub fn named(package_id: &'a str, name: &'a str) -> FeatureName<'a>
        ensures value { name_view result ≡ record {
          package_id = package_id.entry.now;
          label = Named name.entry.now;
        } }
    {
        let label = FeatureLabel::Named(name);
        FeatureName { package_id, label }
    }

    /// An optional dependency of the package.
    pub fn dep(package_id: &'a str, name: &'a str) -> FeatureName<'a>
        ensures value { name_view result ≡ record {
          package_id = package_id.entry.now;
          label = Dep name.entry.now;
        } }
    {
        let label = FeatureLabel::OptionalDependency(name);
        FeatureName { package_id, label }
    }

    // The same feature, with the hash of its package's id.
    pub(crate) fn hashed(self) -> FeatureKey<'a>
        ensures { hashed_view result ≡ name_view self.entry }
    {
        let id = HashedId::of(self.package_id);
        let label = self.label;
        FeatureKey { id, label }
    }
}
