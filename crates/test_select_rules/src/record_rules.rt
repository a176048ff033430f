//! The first rule on features, binaries and groups that a record breaks.

ghost use Rattle.std.specs.Prelude.{◌≡◌, IfOk, map};
ghost use Rattle.guppy_package_rules.specs.Rules.{first_fault};
ghost use Rattle.test_select_rules.specs.Binaries.{binaries};
ghost use Rattle.test_select_rules.specs.BinaryView.{binary_view};
ghost use Rattle.test_select_rules.specs.RecordRules.{further_broken, further_rules};

use crate::binaries::TestBinary;
use crate::binary_rules::{first_blank_binary, first_repeated_binary};
use crate::group_rules::first_bad_group;
use crate::optional_lines::first_unnamed_link;
use crate::rules_on_features::{first_lacking_package, first_repeated_feature};
use guppy_package_rules::RecordRule;
use std::alloc::{AllocError, Global};
use workspace_record::RecordIndex;

/// The rules on optional lines, features, binaries and names of groups in the order in which they are
/// tested.
const FURTHER_RULES: [RecordRule; 6] = [
    RecordRule::OptionalLines,
    RecordRule::FeatureNames,
    RecordRule::BinaryIds,
    RecordRule::BinaryIdTexts,
    RecordRule::RequiredFeatures,
    RecordRule::Groups,
];

/// The first rule on optional lines, features, binaries and names of groups that the record breaks, with
/// its first place. The record is given with what is found in it at once, and with its test binaries.
pub fn first_broken_record_rule(
    alloc: Global,
    index: &RecordIndex<'_>,
    all: &[TestBinary<'_>],
) -> Result<Option<(RecordRule, usize)>, AllocError>
    requires binaries { map binary_view all.now ≡ binaries index.now }
    ensures first { IfOk result (λ fault. fault
        ≡ first_fault (further_broken index.now) further_rules) }
{
    first_fault(alloc, &FURTHER_RULES, index, all)
}

fn first_fault(
    alloc: Global,
    rules: &[RecordRule],
    index: &RecordIndex<'_>,
    all: &[TestBinary<'_>],
) -> Result<Option<(RecordRule, usize)>, AllocError>
    requires { map binary_view all.now ≡ binaries index.now }
    ensures { IfOk result (λ fault. fault ≡ first_fault (further_broken index.now) rules.now) }
{
    for rule in rules {
        if let Some(place) = further_broken(alloc, *rule, index, all)? {
            return Ok(Some((*rule, place)));
        }
    }
    Ok(None)
}

/// The first place at which the record breaks a rule on optional lines, features, binaries or names of
/// groups.
fn further_broken(
    alloc: Global,
    rule: RecordRule,
    index: &RecordIndex<'_>,
    all: &[TestBinary<'_>],
) -> Result<Option<usize>, AllocError>
    requires { map binary_view all.now ≡ binaries index.now }
    ensures { IfOk result (λ place. place ≡ further_broken index.now rule) }
{
    let record = index.record();
    match rule {
        RecordRule::OptionalLines => Ok(first_unnamed_link(index)),
        RecordRule::FeatureNames => first_repeated_feature(alloc, &record.packages),
        RecordRule::BinaryIds => first_repeated_binary(alloc, all),
        RecordRule::BinaryIdTexts => Ok(first_blank_binary(all)),
        RecordRule::RequiredFeatures => first_lacking_package(alloc, &record.packages),
        RecordRule::Groups => first_bad_group(alloc, &record.groups),
        RecordRule::PackageIds
        | RecordRule::Versions
        | RecordRule::LinkEnds
        | RecordRule::LinkNames
        | RecordRule::LinkLines
        | RecordRule::Requirements
        | RecordRule::Members
        | RecordRule::MemberNames
        | RecordRule::MemberPaths
        | RecordRule::DefaultMembers
        | RecordRule::Targets
        | RecordRule::Filters => Ok(None),
    }
}
