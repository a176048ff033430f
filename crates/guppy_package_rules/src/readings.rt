//! Versions and requirements, as `semver` reads them.

ghost use Rattle.std.specs.Prelude.{◌≡◌, ◌≢◌, IfErr, IfOk, Ok, false, map, not, option_map, position};
ghost use Rattle.semver.specs.Identifiers.{comparator_view, parts_of};
ghost use Rattle.semver.specs.Parse.{memory_error, req_of, version_parts};
ghost use Rattle.guppy_package_rules.specs.Readings.{AreRequirementsOf, AreVersionsOf};
ghost use Rattle.guppy_package_rules.specs.Refusals.{Names};
ghost use Rattle.guppy_package_rules.specs.Rules.{is_version, is_requirement};
ghost use Rattle.guppy_package_rules.specs.declared.package_graph_error.PackageGraphError.TheVariants.{Broken, Memory};
ghost use Rattle.guppy_package_rules.specs.declared.record_rule.RecordRule.TheVariants.{Requirements, Versions};

use crate::package_graph_error::PackageGraphError;
use crate::record_rule::RecordRule;
use semver::{Error, Version, VersionReq};
use std::alloc::{AllocError, Global};
use workspace_record::{LinkRecord, PackageRecord};

/// What `semver` reads in rows: the version of each package and the requirement of each link.
#[derive(Drop)]
pub struct RowReadings {
    pub versions: Vec<Version>,
    pub requirements: Vec<VersionReq>,
}

/// What `semver` reads in each package's version, or the first package in whose it reads none.
pub(crate) fn read_versions(
    alloc: Global,
    packages: &[PackageRecord],
) -> Result<Vec<Version>, PackageGraphError>
    ensures read { IfOk result (λ versions. AreVersionsOf packages.now versions.items) }
    ensures refused { IfErr result (Names (option_map (λ place. (Versions, place))
        (position (λ p. not (is_version p.version)) packages.now))) }
{
    let mut versions = Vec::with_capacity(alloc, packages.len())?;
    for (place, row) in packages.iter().enumerate() {
        versions.push(read_version(alloc, place, row)?)?;
    }
    Ok(versions)
}

fn read_version(
    alloc: Global,
    place: usize,
    row: &PackageRecord,
) -> Result<Version, PackageGraphError>
    ensures read { IfOk result (λ v. version_parts row.now.version ≡ Ok (parts_of v)) }
    ensures refused { IfErr result (λ e. e ≢ Memory → (e ≡ Broken Versions place)
        × (is_version row.now.version ≡ false)) }
{
    match Version::parse(alloc, row.version.as_str()) {
        Ok(version) => Ok(version),
        Err(error) => Err(unread(error, RecordRule::Versions, place)),
    }
}

/// What `semver` reads in each link's requirement, or the first link in whose it reads none.
pub fn read_requirements(
    alloc: Global,
    links: &[LinkRecord],
) -> Result<Vec<VersionReq>, PackageGraphError>
    ensures read { IfOk result (λ requirements. AreRequirementsOf links.now requirements.items) }
    ensures refused { IfErr result (Names (option_map (λ place. (Requirements, place))
        (position (λ l. not (is_requirement l.requirement)) links.now))) }
{
    let mut requirements = Vec::with_capacity(alloc, links.len())?;
    for (place, row) in links.iter().enumerate() {
        requirements.push(read_requirement(alloc, place, row)?)?;
    }
    Ok(requirements)
}

// It holds its comparators in no more memory than they take, since most have one and room for four.
fn read_requirement(
    alloc: Global,
    place: usize,
    row: &LinkRecord,
) -> Result<VersionReq, PackageGraphError>
    ensures read { IfOk result (λ r. req_of row.now.requirement
        ≡ Ok (map comparator_view r.comparators.items)) }
    ensures refused { IfErr result (λ e. e ≢ Memory → (e ≡ Broken Requirements place)
        × (is_requirement row.now.requirement ≡ false)) }
{
    match VersionReq::parse(alloc, row.requirement.as_str()) {
        Ok(mut requirement) => {
            requirement.comparators.shrink_to_fit();
            Ok(requirement)
        }
        Err(error) => Err(unread(error, RecordRule::Requirements, place)),
    }
}

// Once the rules are kept, `semver` refuses for want of memory alone, told by the error that it makes of it.
/// Why a text is refused: the rule is broken at the place, unless memory ran out.
fn unread(error: Error, rule: RecordRule, place: usize) -> PackageGraphError
    ensures { result ≢ Memory → (result ≡ Broken rule place) × (error ≢ memory_error) }
{
    if error == Error::from(AllocError) {
        PackageGraphError::Memory
    } else {
        PackageGraphError::Broken { rule, place }
    }
}
