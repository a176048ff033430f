//! The faults of words that mean no feature.

ghost use Rattle.std.specs.Prelude.{IfOk};
ghost use Rattle.cargo_files.specs.Faults.{MissesFeature};
ghost use Rattle.cargo_files.specs.Meaning.{Tells};

use crate::choice_fault::ChoiceFault;
use crate::meaning::{is_member, member_named};
use crate::near::NearNames;
use crate::word::{Word, word_of};
use std::alloc::{AllocError, Global};
use workspace_record::{PackageIndex, RecordIndex};

/// The fault of a word that means no feature.
pub(crate) fn refused(
    alloc: Global,
    index: &RecordIndex<'_>,
    word: &str,
) -> Result<ChoiceFault, AllocError>
    ensures { IfOk result (Tells index.now word.now) }
{
    match word_of(word) {
        Word::OfEach(_) => no_feature(alloc, index, word),
        Word::OfMember(owner, name) => match member_named(index, owner) {
            Some(package) => {
                let mut near = NearNames::of(alloc, name);
                offer_features(alloc, &mut near, package)?;
                let word = String::from_str(alloc, word)?;
                Ok(ChoiceFault::NoFeature(word, near.into_text()))
            }
            None => {
                let mut near = NearNames::of(alloc, owner);
                for package in index.packages() {
                    if is_member(index, package) {
                        near.offer(alloc, package.row().name.as_str())?;
                    }
                }
                let word = String::from_str(alloc, word)?;
                Ok(ChoiceFault::NoMember(word, near.into_text()))
            }
        },
    }
}

/// The fault of a feature that no member has, with the members' features that are near it.
fn no_feature(alloc: Global, index: &RecordIndex<'_>, name: &str) -> Result<ChoiceFault, AllocError>
    ensures { IfOk result (MissesFeature name.now) }
{
    let mut near = NearNames::of(alloc, name);
    for package in index.packages() {
        if is_member(index, package) {
            offer_features(alloc, &mut near, package)?;
        }
    }
    let word = String::from_str(alloc, name)?;
    Ok(ChoiceFault::NoFeature(word, near.into_text()))
}

fn offer_features(
    alloc: Global,
    near: &mut NearNames<'_>,
    package: &PackageIndex<'_>,
) -> Result<(), AllocError> {
    for feature in &package.row().features {
        near.offer(alloc, feature.name.as_str())?;
    }
    Ok(())
}
