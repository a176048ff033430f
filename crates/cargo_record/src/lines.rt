//! The links of the record, with their lines.

ghost use Rattle.std.specs.Prelude.{◌<◌, ◌≡◌, ◌≢◌, ◌≤◌, ℕ, All, AllPairs, Contains, IfErr, IfNone, IfOk, IfSome, List, OnOk, Some, [], ◌∷◌, false, length, slice_get, string_bytes, true};
ghost use Rattle.std.specs.List.{list_all, list_any};
ghost use Rattle.workspace_record.specs.Records.{Workspace};
ghost use Rattle.workspace_record.specs.Packages.{is_member};
ghost use Rattle.cargo_metadata.specs.Dependencies.{Declared, name_of};
ghost use Rattle.cargo_metadata.specs.Packages.{Declaring};
ghost use Rattle.cargo_metadata.specs.Resolved.{Entry};
ghost use Rattle.cargo_record.specs.Fitting.{IsResolution, fits, several_fit};
ghost use Rattle.cargo_record.specs.Kept.{owns_targets, requires_own};
ghost use Rattle.cargo_record.specs.Lines.{AreApart, AreApartFrom, AreLines, AreLinesOf, IsDeclaredLink, IsLinkAt, IsOneMore, IsPushed, StayDeclared, TakesUp, counts, line_rows, link_of, row_of};
ghost use Rattle.cargo_record.specs.Refused.{HasNoLine, RefusesLinks, RefusesOne, RefusesPackages, RefusesTargets};

use crate::fault::RecordFault;
use crate::fitting::{Resolution, resolved_to};
use crate::members::copy_text;
use crate::packages::foreign_feature;
use cargo_metadata::{DeclaringPackage, Dependency, Metadata, ResolvedPackage};
use std::alloc::{AllocError, Global};
use workspace_record::{LineKind, LinkRecord, RecordIndex, TargetRecord, WorkspaceRecord};

/// The links of packages and members that stand in a record.
pub(crate) fn links_of(
    alloc: Global,
    rows: &WorkspaceRecord,
    metadata: &Metadata,
) -> Result<Vec<LinkRecord>, RecordFault>
    ensures lines { IfOk result (λ links. AreLinesOf rows.now metadata.now
        (line_rows links.items)) }
    ensures links { IfOk result (λ links. All (IsDeclaredLink metadata.now.packages) links.items) }
    ensures apart { IfOk result (λ links. AllPairs (λ p q. p.row.id ≢ q.row.id)
        metadata.now.packages → AreApart links.items) }
    ensures own { IfOk result (λ _. list_all (owns_targets rows.now) metadata.now.packages ≡ true) }
    ensures refused { IfErr result (RefusesLinks rows.now metadata.now) }
{
    let Some(nodes) = &metadata.nodes else {
        return Err(RecordFault::NoResolve);
    };
    let index = RecordIndex::of(alloc, rows)?;
    let links = all_links(alloc, &index, &metadata.packages, nodes)?;
    Ok(links)
}

fn all_links(
    alloc: Global,
    index: &RecordIndex<'_>,
    packages: &[DeclaringPackage],
    nodes: &[ResolvedPackage],
) -> Result<Vec<LinkRecord>, RecordFault>
    ensures lines { IfOk result (λ links. AreLines index.now packages.now nodes.now
        (line_rows links.items)) }
    ensures links { IfOk result (λ links. All (IsDeclaredLink packages.now) links.items) }
    ensures apart { IfOk result (λ links. AllPairs (λ p q. p.row.id ≢ q.row.id) packages.now
        → AreApart links.items) }
    ensures own { IfOk result (λ _. list_all (owns_targets index.now) packages.now ≡ true) }
    ensures refused { IfErr result (RefusesPackages index.now packages.now nodes.now) }
{
    let mut links = Vec::new(alloc);
    for (place, package) in packages.iter().enumerate() {
        check_targets(alloc, index, package)?;
        let node = node_at(alloc, nodes, place, package)?;
        push_links(alloc, &mut links, index, package, node)?;
    }
    Ok(links)
}

/// What was resolved for the package at a place: Cargo lists both in one order.
fn node_at<'a>(
    alloc: Global,
    nodes: &'a [ResolvedPackage],
    place: usize,
    package: &DeclaringPackage,
) -> Result<&'a ResolvedPackage, RecordFault>
    ensures node { IfOk result (λ n. Contains nodes.entry.now n.now
        × (n.now.id ≡ «package».now.row.id)) }
    ensures refused { IfErr result (λ e. (w : Workspace) (packages : List Declaring)
        → slice_get packages place ≡ Some «package».now
        → RefusesPackages w packages nodes.entry.now e) }
{
    let id = package.row.id.as_str();
    match nodes.get(place) {
        Some(node) if node.id.as_str() == id => Ok(node),
        _ => Err(RecordFault::NoNode(String::from_str(alloc, id)?)),
    }
}

/// Refuses a member's target that requires a feature which is none of its package.
fn check_targets(
    alloc: Global,
    index: &RecordIndex<'_>,
    package: &DeclaringPackage,
) -> Result<(), RecordFault>
    ensures own { IfOk result (λ _. owns_targets index.now «package».now ≡ true) }
    ensures refused { IfErr result (λ e. (is_member index.now «package».now.row.id ≡ true)
        × RefusesTargets «package».now e) }
{
    if !index.is_member(id_of(package)) {
        return Ok(());
    }
    for target in &package.row.targets {
        check_target(alloc, package, target)?;
    }
    Ok(())
}

fn check_target(
    alloc: Global,
    package: &DeclaringPackage,
    target: &TargetRecord,
) -> Result<(), RecordFault>
    ensures own { IfOk result (λ _. requires_own «package».now.row.features target.now ≡ true) }
    ensures refused { IfErr result (λ e. Contains «package».now.row.targets target.now
        → RefusesTargets «package».now e) }
{
    let Some(feature) = foreign_feature(&package.row.features, &target.required_features) else {
        return Ok(());
    };
    let id = String::from_str(alloc, id_of(package))?;
    let name = String::from_str(alloc, target.name.as_str())?;
    let feature = String::from_str(alloc, feature)?;
    Err(RecordFault::ForeignFeature(id, name, feature))
}

/// Adds the lines of a package's dependencies.
fn push_links(
    alloc: Global,
    links: &mut Vec<LinkRecord>,
    index: &RecordIndex<'_>,
    package: &DeclaringPackage,
    node: &ResolvedPackage,
) -> Result<(), RecordFault>
    ensures taken { OnOk result (TakesUp index.now «package».now node.now «package».now.dependencies
        (line_rows links.old.items) (line_rows links.new.items)) }
    ensures declared { OnOk result ((packages : List Declaring) → Contains packages «package».now
        → All (IsDeclaredLink packages) links.old.items
        → All (IsDeclaredLink packages) links.new.items) }
    ensures apart { OnOk result (All (λ l. l.from ≢ «package».now.row.id) links.old.items
        → AreApart links.old.items → AreApart links.new.items) }
    ensures refused { IfErr result (RefusesOne index.now «package».now.row.id node.now.dependencies
        «package».now.dependencies) }
{
    let start = links.len();
    for dependency in &package.dependencies {
        push_dependency(alloc, links, start, index, package, node, dependency)?;
    }
    Ok(())
}

/// Adds the line of a dependency, if it counts.
fn push_dependency(
    alloc: Global,
    links: &mut Vec<LinkRecord>,
    start: usize,
    index: &RecordIndex<'_>,
    package: &DeclaringPackage,
    node: &ResolvedPackage,
    dependency: &Dependency,
) -> Result<(), RecordFault>
    ensures taken { OnOk result (TakesUp index.now «package».now node.now (dependency.now ∷ [])
        (line_rows links.old.items) (line_rows links.new.items)) }
    ensures declared { OnOk result (StayDeclared «package».now.row.id dependency.now
        links.old.items links.new.items) }
    ensures apart { OnOk result (AreApartFrom start «package».now.row.id links.old.items
        → AreApartFrom start «package».now.row.id links.new.items) }
    ensures refused { IfErr result (λ e. (counts index.now «package».now.row.id dependency.now
        ≡ true) × HasNoLine index.now «package».now.row.id node.now.dependencies dependency.now e) }
{
    let id = id_of(package);
    if !counts(index, id, dependency) {
        return Ok(());
    }
    let found = resolved_to(alloc, index, dependency, &node.dependencies)?;
    push_resolved(alloc, links, start, index, id, dependency, found)?;
    Ok(())
}

fn id_of(package: &DeclaringPackage) -> &str
    ensures { result.now ≡ «package».entry.now.row.id }
{
    package.row.id.as_str()
}

/// Whether Cargo resolves a dependency of a package: those for development are a member's alone.
fn counts(index: &RecordIndex<'_>, id: &str, dependency: &Dependency) -> bool
    ensures { result ≡ counts index.now id.now dependency.now }
{
    index.is_member(id) || dependency.line.kind != LineKind::Dev
}

/// Adds the line of a dependency to what it was resolved to.
fn push_resolved(
    alloc: Global,
    links: &mut Vec<LinkRecord>,
    start: usize,
    index: &RecordIndex<'_>,
    id: &str,
    dependency: &Dependency,
    found: Resolution<'_>,
) -> Result<(), RecordFault>
    ensures pushed { OnOk result (IsPushed index.now id.now dependency.now found.entry
        (line_rows links.old.items) (line_rows links.new.items)) }
    ensures declared { OnOk result (StayDeclared id.now dependency.now links.old.items
        links.new.items) }
    ensures apart { OnOk result (AreApartFrom start id.now links.old.items
        → AreApartFrom start id.now links.new.items) }
    ensures refused { IfErr result (λ e. (entries : List Entry)
        → IsResolution index.now dependency.now entries found.entry
        → HasNoLine index.now id.now entries dependency.now e) }
{
    match found {
        Resolution::To(to) => Ok(push_line(alloc, links, start, id, to, dependency)?),
        Resolution::Several => Err(ambiguous(alloc, id, dependency.name())),
        Resolution::Nothing if !dependency.line.optional || index.is_member(id) => {
            Err(no_dependency(alloc, id, dependency))
        }
        Resolution::Nothing => Ok(()),
    }
}

fn ambiguous(alloc: Global, id: &str, name: &str) -> RecordFault
    ensures { (w : Workspace) (entries : List Entry) (d : Declared) → name.now ≡ name_of d
        → several_fit w d entries ≡ true → HasNoLine w id.now entries d result }
{
    match copies(alloc, id, name) {
        Ok((id, name)) => RecordFault::Ambiguous(id, name),
        Err(_) => RecordFault::Memory,
    }
}

/// The fault of a dependency that nothing fits.
fn no_dependency(alloc: Global, id: &str, dependency: &Dependency) -> RecordFault
    ensures { (w : Workspace) (entries : List Entry)
        → (dependency.now.line.optional ≡ true → is_member w id.now ≡ true)
        → list_any (fits w dependency.now) entries ≡ false
        → HasNoLine w id.now entries dependency.now result }
{
    match copies(alloc, id, dependency.name()) {
        Ok((id, name)) if dependency.line.optional => RecordFault::NoOptional(id, name),
        Ok((id, name)) => RecordFault::NoDependency(id, name),
        Err(_) => RecordFault::Memory,
    }
}

/// The id of a package and the name of its dependency, in memory of their own.
fn copies(alloc: Global, id: &str, name: &str) -> Result<(String, String), AllocError>
    ensures { IfOk result (λ t. (string_bytes t.0 ≡ id.now) × (string_bytes t.1 ≡ name.now)) }
{
    let id = String::from_str(alloc, id)?;
    let name = String::from_str(alloc, name)?;
    Ok((id, name))
}

/// Adds a line to the link of its name and package, which is the one from the place on, or a new one.
fn push_line(
    alloc: Global,
    links: &mut Vec<LinkRecord>,
    start: usize,
    from: &str,
    to: &str,
    dependency: &Dependency,
) -> Result<(), AllocError>
    ensures more { OnOk result (IsOneMore (line_rows links.old.items)
        (row_of from.now to.now dependency.now) (line_rows links.new.items)) }
    ensures declared { OnOk result (StayDeclared from.now dependency.now links.old.items
        links.new.items) }
    ensures apart { OnOk result (AreApartFrom start from.now links.old.items
        → AreApartFrom start from.now links.new.items) }
{
    match place_of(links, start, from, to, dependency.name()) {
        Some(place) => {
            let line = dependency.line.copy(alloc)?;
            let link = &mut links[place];
            link.lines.push(line)?;
        }
        None => links.push(new_link(alloc, from, to, dependency)?)?,
    }
    Ok(())
}

/// The place of the link with this name between two packages, from a place on.
fn place_of(links: &[LinkRecord], start: usize, from: &str, to: &str, name: &str) -> Option<usize>
    ensures within { IfSome result (λ place. place < length links.now) }
    ensures is { IfSome result (λ place. IsLinkAt links.now place from.now to.now name.now) }
    ensures none { IfNone result ((k : ℕ) → start ≤ k → k < length links.now
        → ¬ IsLinkAt links.now k from.now to.now name.now) }
{
    for place in start..links.len() {
        let link = &links[place];
        if link.name.as_str() == name && link.to.as_str() == to && link.from.as_str() == from {
            return Some(place);
        }
    }
    None
}

/// A link with the line of a dependency.
fn new_link(
    alloc: Global,
    from: &str,
    to: &str,
    dependency: &Dependency,
) -> Result<LinkRecord, AllocError>
    ensures { IfOk result (λ l. l ≡ link_of from.now to.now dependency.now []) }
{
    let from = String::from_str(alloc, from)?;
    let to = String::from_str(alloc, to)?;
    let name = String::from_str(alloc, dependency.name())?;
    let requirement = String::from_str(alloc, dependency.requirement.as_str())?;
    let registry = copy_text(alloc, &dependency.registry)?;
    let path = copy_text(alloc, &dependency.path)?;
    let lines = Vec::from_array(alloc, [dependency.line.copy(alloc)?])?;
    Ok(LinkRecord {
        from,
        to,
        name,
        requirement,
        lines,
        registry,
        path,
    })
}
