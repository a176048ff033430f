//! The named features that are on, as filters are told of them.

ghost use Rattle.std.specs.Prelude.{◌≡◌, ◌++◌, IfOk, OnOk, flat_map, map};
ghost use Rattle.nextest_filtering.specs.ContextViews.{listed_as};
ghost use Rattle.test_select_tests.specs.NamedFeatures.{AreNamedOn, named_pair};

use guppy_package_graph::PackageId;
use std::alloc::{AllocError, Global};
use test_select_rules::FeaturesOn;
use workspace_record::{Feature, Label};

/// The named features that are on, each by the id of its package and its name.
pub(crate) fn named_features(
    alloc: Global,
    on: &FeaturesOn,
) -> Result<Vec<(PackageId, String)>, AllocError>
    ensures { IfOk result (λ v. AreNamedOn on.now (map listed_as v.items)) }
{
    let named = named_among(alloc, on.as_slice())?;
    Ok(named)
}

fn named_among(alloc: Global, features: &[Feature]) -> Result<Vec<(PackageId, String)>, AllocError>
    ensures { IfOk result (λ v. map listed_as v.items ≡ flat_map named_pair features.now) }
{
    let mut named = Vec::new(alloc);
    for feature in features {
        push_named(alloc, feature, &mut named)?;
    }
    Ok(named)
}

fn push_named(
    alloc: Global,
    feature: &Feature,
    named: &mut Vec<(PackageId, String)>,
) -> Result<(), AllocError>
    ensures { OnOk result (map listed_as named.new.items
        ≡ map listed_as named.old.items ++ named_pair feature.now) }
{
    match &feature.label {
        Label::Named(name) => {
            let id = PackageId::new(String::from_str(alloc, feature.package.as_str())?);
            let name = String::from_str(alloc, name.as_str())?;
            named.push((id, name))?;
            Ok(())
        }
        Label::Base => Ok(()),
        Label::Dep(_) => Ok(()),
    }
}
