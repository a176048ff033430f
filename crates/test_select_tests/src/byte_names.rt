//! That the names of records and of features are made of bytes, as all texts of a program are. It is known
//! of a row once it is read.

ghost use Rattle.std.specs.Prelude.{All};
ghost use Rattle.nextest_filtering.specs.SameFilters.{AreBytes};
ghost use Rattle.test_select_tests.specs.ByteNames.{IsByteLabel};
ghost use Rattle.test_select_tests.specs.Questions.{IsBytePackage, HasByteTexts};

use workspace_record::{
    Feature, FeatureRecord, GroupRecord, PackageRecord, TargetRecord, WorkspaceRecord,
};

/// The names of packages, features, targets and groups are made of bytes in each record that a program
/// holds.
pub fn record_names_are_bytes(record: &WorkspaceRecord)
    ensures texts { HasByteTexts «record».now }
{
    see_packages(&record.packages);
    see_groups(&record.groups);
}

/// So are the names of features.
pub fn feature_names_are_bytes(features: &[Feature])
    ensures texts { All (λ f. IsByteLabel f.label) features.now }
{
    for feature in features {
        let _label = &feature.label;
    }
}

fn see_packages(packages: &[PackageRecord])
    ensures { All IsBytePackage packages.now }
{
    for row in packages {
        see_package(row);
    }
}

fn see_package(row: &PackageRecord)
    ensures { IsBytePackage row.now }
{
    let _name = &row.name;
    see_features(&row.features);
    see_targets(&row.targets);
}

fn see_features(features: &[FeatureRecord])
    ensures { All (λ f. AreBytes f.name) features.now }
{
    for feature in features {
        let _name = &feature.name;
    }
}

fn see_targets(targets: &[TargetRecord])
    ensures { All (λ t. AreBytes t.name) targets.now }
{
    for target in targets {
        let _name = &target.name;
    }
}

fn see_groups(groups: &[GroupRecord])
    ensures { All (λ g. AreBytes g.name) groups.now }
{
    for group in groups {
        let _name = &group.name;
    }
}
