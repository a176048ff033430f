//! What is read in rows, or the first rule on packages, links and members that they break.

ghost use Rattle.std.specs.Prelude.{◌≡◌, IfErr, IfOk, List, None, option_map};
ghost use Rattle.workspace_record.specs.Records.{Link, WorkspaceDetails};
ghost use Rattle.guppy_package_rules.specs.Kept.{AreKept};
ghost use Rattle.guppy_package_rules.specs.Readings.{AreReadIn};
ghost use Rattle.guppy_package_rules.specs.Refusals.{IsRefusal, Names};
ghost use Rattle.guppy_package_rules.specs.Rules.{first_broken, first_fault, link_rules, member_rules};

use crate::id_rules::first_repeated_id;
use crate::link_rules::{first_empty_link, first_repeated_link, first_unknown_end};
use crate::member_rules::{
    first_bad_member, first_repeated_name, first_repeated_path, first_unknown_default,
};
use crate::package_graph_error::PackageGraphError;
use crate::readings::{RowReadings, read_requirements, read_versions};
use crate::record_rule::RecordRule;
use crate::target_rules::first_repeated_target;
use std::alloc::Global;
use workspace_record::{LinkRecord, PackageRecord, WorkspaceInfo};

// Versions and requirements are read where their rules are tested, so the rules stand in three parts round the
// two readings; that the first broken one of the whole list is told is proved of the parts.
/// What is read in these rows, which keep the rules on packages, links and members; or the first of the
/// rules that they break, with the first place that breaks it. Places count packages, links, members or
/// default members from 0, as the rule says; of two equal entries the later one breaks it.
pub fn read_rows(
    alloc: Global,
    packages: &[PackageRecord],
    links: &[LinkRecord],
    workspace: &WorkspaceInfo,
) -> Result<RowReadings, PackageGraphError>
    ensures kept { IfOk result (λ _. AreKept packages.now links.now workspace.now) }
    ensures read { IfOk result (AreReadIn packages.now links.now) }
    ensures refused { IfErr result (IsRefusal packages.now links.now workspace.now) }
{
    test(RecordRule::PackageIds, first_repeated_id(alloc, packages)?)?;
    let versions = read_versions(alloc, packages)?;
    test_links(alloc, packages, links)?;
    let requirements = read_requirements(alloc, links)?;
    test_members(alloc, packages, workspace)?;
    Ok(RowReadings {
        versions,
        requirements,
    })
}

/// Tests the rules on links, but for that on requirements.
fn test_links(
    alloc: Global,
    packages: &[PackageRecord],
    links: &[LinkRecord],
) -> Result<(), PackageGraphError>
    ensures kept { IfOk result (λ _. (w : WorkspaceDetails)
        → first_fault (first_broken packages.now links.now w) link_rules ≡ None) }
    ensures refused { IfErr result (λ e. (w : WorkspaceDetails)
        → Names (first_fault (first_broken packages.now links.now w) link_rules) e) }
{
    test(
        RecordRule::LinkEnds,
        first_unknown_end(alloc, packages, links)?,
    )?;
    test(RecordRule::LinkNames, first_repeated_link(alloc, links)?)?;
    test(RecordRule::LinkLines, first_empty_link(links))?;
    Ok(())
}

/// Tests the rules on members and default members, and last of all that on targets.
fn test_members(
    alloc: Global,
    packages: &[PackageRecord],
    workspace: &WorkspaceInfo,
) -> Result<(), PackageGraphError>
    ensures kept { IfOk result (λ _. (links : List Link)
        → first_fault (first_broken packages.now links workspace.now) member_rules ≡ None) }
    ensures refused { IfErr result (λ e. (links : List Link)
        → Names (first_fault (first_broken packages.now links workspace.now) member_rules) e) }
{
    let members = &workspace.members;
    test(
        RecordRule::Members,
        first_bad_member(alloc, packages, workspace)?,
    )?;
    test(
        RecordRule::MemberNames,
        first_repeated_name(alloc, packages, members)?,
    )?;
    test(
        RecordRule::MemberPaths,
        first_repeated_path(alloc, members)?,
    )?;
    test(
        RecordRule::DefaultMembers,
        first_unknown_default(alloc, workspace)?,
    )?;
    test(RecordRule::Targets, first_repeated_target(alloc, packages)?)?;
    Ok(())
}

/// Refuses where the rule is broken at a place.
fn test(rule: RecordRule, broken: Option<usize>) -> Result<(), PackageGraphError>
    ensures kept { IfOk result (λ _. broken ≡ None) }
    ensures refused { IfErr result (Names (option_map (λ place. (rule, place)) broken)) }
{
    match broken {
        None => Ok(()),
        Some(place) => Err(PackageGraphError::Broken { rule, place }),
    }
}
