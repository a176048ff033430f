//! The features that a word means.

ghost use Rattle.std.specs.Prelude.{◌≡◌, ◌++◌, IfOk, OnOk, flat_map, option_copied};
ghost use Rattle.workspace_record.specs.Packages.{is_member};
ghost use Rattle.cargo_files.specs.Meaning.{meant, member_feature, member_named, own_feature};
ghost use Rattle.cargo_files.specs.Words.{OfMember, word_value};

use crate::word::{Word, word_of};
use std::alloc::{AllocError, Global};
use workspace_record::{Feature, PackageIndex, RecordIndex};

/// The features that a word means.
pub(crate) fn meant_by_word(
    alloc: Global,
    index: &RecordIndex<'_>,
    word: &str,
) -> Result<Vec<Feature>, AllocError>
    ensures { IfOk result (λ v. v.items ≡ meant index.now (word_value word.now)) }
{
    match word_of(word) {
        Word::OfEach(name) => features_among(alloc, index, index.packages(), name),
        Word::OfMember(owner, name) => {
            let mut features = Vec::new(alloc);
            if let Some(package) = member_named(index, owner) {
                push_own_feature(alloc, &mut features, package, name)?;
            }
            Ok(features)
        }
    }
}

/// The features of this name of these packages, as far as they are members.
fn features_among(
    alloc: Global,
    index: &RecordIndex<'_>,
    packages: &[PackageIndex<'_>],
    name: &str,
) -> Result<Vec<Feature>, AllocError>
    ensures { IfOk result (λ v. v.items
        ≡ flat_map (member_feature index.now name.now) packages.now) }
{
    let mut features = Vec::new(alloc);
    for package in packages {
        push_member_feature(alloc, &mut features, index, package, name)?;
    }
    Ok(features)
}

fn push_member_feature(
    alloc: Global,
    features: &mut Vec<Feature>,
    index: &RecordIndex<'_>,
    package: &PackageIndex<'_>,
    name: &str,
) -> Result<(), AllocError>
    ensures { OnOk result (features.new.items
        ≡ features.old.items ++ member_feature index.now name.now «package».now) }
{
    if is_member(index, package) {
        push_own_feature(alloc, features, package, name)?;
    }
    Ok(())
}

fn push_own_feature(
    alloc: Global,
    features: &mut Vec<Feature>,
    package: &PackageIndex<'_>,
    name: &str,
) -> Result<(), AllocError>
    ensures { OnOk result (features.new.items
        ≡ features.old.items ++ own_feature name.now «package».now) }
{
    if package.has_feature(name) {
        features.push(Feature::named(alloc, package.row().id.as_str(), name)?)?;
    }
    Ok(())
}

/// The first member of this name.
pub(crate) fn member_named<'i, 'r>(
    index: &'i RecordIndex<'r>,
    owner: &str,
) -> Option<&'i PackageIndex<'r>>
    ensures { option_copied result ≡ member_named index.entry.now owner.now }
{
    index.packages().iter().find(|package| {
        is_member(index, package) && package.row().name.as_str() == owner
    })
}

pub(crate) fn is_member(index: &RecordIndex<'_>, package: &PackageIndex<'_>) -> bool
    ensures { result ≡ is_member index.now «package».now.id }
{
    index.is_member(package.row().id.as_str())
}
