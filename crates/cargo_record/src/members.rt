//! The members that are asked about.

ghost use Rattle.std.specs.Prelude.{◌≡◌, ◌&&◌, Contains, IfErr, IfNone, IfOk, IfSome, None, Some, bytes_eq, false, filter, map, option_copied, option_map, string_bytes, true};
ghost use Rattle.std.specs.List.{list_all, list_any};
ghost use Rattle.workspace_record.specs.Records.{Text};
ghost use Rattle.cargo_record.specs.Members as spec;
ghost use Rattle.cargo_record.specs.Refused.{RefusesMembers};
ghost use Rattle.cargo_record.specs.declared.members.RequestedMembers.{RequestedMembers};

use crate::fault::RecordFault;
use cargo_metadata::{DeclaringPackage, Metadata, WorkspaceNames, folder_of};
use std::alloc::{AllocError, Global};
use workspace_record::{MemberRecord, WorkspaceInfo};

/// Which members are asked about, as Cargo chooses them.
#[derive(Clone, Copy)]
pub enum RequestedMembers<'a> {
    /// The default members, or all where none are named.
    Default,
    /// All members.
    Workspace,
    /// The members with these names.
    Named(&'a [&'a str]),
}

/// The workspace with the members that are asked about.
pub(crate) fn workspace_of(
    alloc: Global,
    metadata: &Metadata,
    wanted: RequestedMembers<'_>,
) -> Result<WorkspaceInfo, RecordFault>
    ensures names { IfOk result (λ _. spec.are_names metadata.now wanted.entry ≡ true) }
    ensures is { IfOk result (λ w. spec.IsWorkspaceOf metadata.now wanted.entry w) }
    ensures refused { IfErr result (RefusesMembers metadata.now wanted.entry) }
{
    check_names(alloc, metadata, wanted)?;
    let members = members_of(alloc, metadata, wanted, &metadata.workspace.members)?;
    Ok(workspace_named(alloc, &metadata.workspace, members)?)
}

fn workspace_named(
    alloc: Global,
    names: &WorkspaceNames,
    members: Vec<MemberRecord>,
) -> Result<WorkspaceInfo, AllocError>
    ensures root { IfOk result (λ w. w.root ≡ names.now.root) }
    ensures target_directory { IfOk result (λ w. w.target_directory ≡ names.now.target_directory) }
    ensures build_directory { IfOk result (λ w. w.build_directory ≡ names.now.build_directory) }
    ensures members { IfOk result (λ w. w.members ≡ members.items) }
    ensures default_members { IfOk result (λ w. w.default_members
        ≡ filter (spec.is_among (spec.ids members.items))
        (spec.named_defaults names.now.default_members)) }
    ensures metadata { IfOk result (λ w. w.metadata ≡ None) }
{
    let default_members = default_members_of(alloc, &names.default_members, &members)?;
    let root = String::from_str(alloc, names.root.as_str())?;
    let target_directory = String::from_str(alloc, names.target_directory.as_str())?;
    let build_directory = copy_text(alloc, &names.build_directory)?;
    Ok(WorkspaceInfo {
        root,
        target_directory,
        build_directory,
        members,
        default_members,
        metadata: None,
    })
}

pub(crate) fn copy_text(alloc: Global, text: &Option<String>) -> Result<Option<String>, AllocError>
    ensures { IfOk result (λ t. option_map string_bytes t ≡ option_map string_bytes text.now) }
{
    match text {
        Some(text) => Ok(Some(String::from_str(alloc, text.as_str())?)),
        None => Ok(None),
    }
}

/// Of the members with these ids those that are asked about.
fn members_of(
    alloc: Global,
    metadata: &Metadata,
    wanted: RequestedMembers<'_>,
    ids: &[String],
) -> Result<Vec<MemberRecord>, RecordFault>
    ensures members { IfOk result (λ v. v.items
        ≡ map (spec.member_with metadata.now)
        (filter (spec.is_asked metadata.now wanted.entry) (map string_bytes ids.now))) }
    ensures refused { IfErr result (λ e. ((id : Text) → Contains (map string_bytes ids.now) id
        → Contains metadata.now.workspace.members id)
        → RefusesMembers metadata.now wanted.entry e) }
{
    let mut members = Vec::new(alloc);
    for id in ids {
        let package = member_package(alloc, metadata, id.as_str())?;
        if is_wanted(
            wanted,
            &metadata.workspace,
            id.as_str(),
            package.row.name.as_str(),
        ) {
            members.push(member_of(alloc, metadata, id.as_str(), package)?)?;
        }
    }
    Ok(members)
}

/// The package of a member.
fn member_package<'a>(
    alloc: Global,
    metadata: &'a Metadata,
    id: &str,
) -> Result<&'a DeclaringPackage, RecordFault>
    ensures package { IfOk result (λ p. spec.package_with metadata.entry.now id.now ≡ Some p.now) }
    ensures refused { IfErr result (λ e. (asked : RequestedMembers)
        → Contains metadata.entry.now.workspace.members id.now
        → RefusesMembers metadata.entry.now asked e) }
{
    match package_with(metadata, id) {
        Some(package) => Ok(package),
        None => Err(RecordFault::NoPackage(String::from_str(alloc, id)?)),
    }
}

/// The package with this id.
fn package_with<'a>(metadata: &'a Metadata, id: &str) -> Option<&'a DeclaringPackage>
    ensures { option_copied result ≡ spec.package_with metadata.entry.now id.now }
{
    metadata
        .packages
        .iter()
        .find(|package| package.row.id.as_str() == id)
}

/// The member of this id and package.
fn member_of(
    alloc: Global,
    metadata: &Metadata,
    id: &str,
    package: &DeclaringPackage,
) -> Result<MemberRecord, AllocError>
    requires { spec.package_with metadata.now id.now ≡ Some «package».now }
    ensures { IfOk result (λ member. member ≡ spec.member_with metadata.now id.now) }
{
    let folder = folder_of(package.row.info.manifest_path.as_str());
    let path = String::from_str(alloc, below(metadata.workspace.root.as_str(), folder))?;
    let package = String::from_str(alloc, id)?;
    Ok(MemberRecord { package, path })
}

/// Whether a member is asked about.
fn is_wanted(wanted: RequestedMembers<'_>, names: &WorkspaceNames, id: &str, name: &str) -> bool
    ensures { result ≡ spec.is_wanted wanted.entry names.now id.now name.now }
{
    match wanted {
        RequestedMembers::Workspace => true,
        RequestedMembers::Named(all) => is_named(all, name),
        RequestedMembers::Default => is_default(&names.default_members, id),
    }
}

fn is_named(all: &[&str], name: &str) -> bool
    ensures { result ≡ list_any (λ other. bytes_eq other.now name.now) all.now }
{
    all.iter().any(|other| *other == name)
}

fn is_default(defaults: &Option<Vec<String>>, id: &str) -> bool
    ensures { result ≡ spec.is_default (option_map (λ v. map string_bytes v.items) defaults.now)
        id.now }
{
    match defaults {
        Some(ids) => is_among(ids, id),
        None => true,
    }
}

fn is_among(ids: &[String], id: &str) -> bool
    ensures { result ≡ spec.is_among (map string_bytes ids.now) id.now }
{
    ids.iter().any(|other| other.as_str() == id)
}

/// The path of a folder below another one; a folder elsewhere is named as it is.
fn below<'a>(root: &str, folder: &'a str) -> &'a str
    ensures { result.now ≡ spec.below root.now folder.entry.now }
{
    match folder.strip_prefix(root) {
        Some(rest) => unslashed(rest),
        None => folder,
    }
}

fn unslashed(path: &str) -> &str
    ensures { result.now ≡ spec.unslashed path.entry.now }
{
    match path.strip_prefix("/") {
        Some(rest) => rest,
        None => path,
    }
}

/// The default members among the members that are asked about.
fn default_members_of(
    alloc: Global,
    defaults: &Option<Vec<String>>,
    members: &[MemberRecord],
) -> Result<Vec<String>, AllocError>
    ensures { IfOk result (λ v. map string_bytes v.items
        ≡ filter (spec.is_among (spec.ids members.now))
        (spec.named_defaults (option_map (λ w. map string_bytes w.items) defaults.now))) }
{
    let Some(ids) = defaults else {
        return Ok(Vec::new(alloc));
    };
    let mut found = Vec::new(alloc);
    for id in ids {
        if has_member(members, id.as_str()) {
            found.push(String::from_str(alloc, id.as_str())?)?;
        }
    }
    Ok(found)
}

fn has_member(members: &[MemberRecord], id: &str) -> bool
    ensures { result ≡ spec.is_among (spec.ids members.now) id.now }
{
    members.iter().any(|member| member.package.as_str() == id)
}

/// Refuses a name that is asked for and that no member has.
fn check_names(
    alloc: Global,
    metadata: &Metadata,
    wanted: RequestedMembers<'_>,
) -> Result<(), RecordFault>
    ensures names { IfOk result (λ _. spec.are_names metadata.now wanted.entry ≡ true) }
    ensures refused { IfErr result (RefusesMembers metadata.now wanted.entry) }
{
    let RequestedMembers::Named(names) = wanted else {
        return Ok(());
    };
    match unknown_name(metadata, names) {
        Some(name) => Err(RecordFault::NoMember(String::from_str(alloc, name)?)),
        None => Ok(()),
    }
}

/// The first name that no member has.
fn unknown_name<'a>(metadata: &Metadata, names: &[&'a str]) -> Option<&'a str>
    ensures none { IfNone result (list_all (λ name. spec.is_member_name metadata.now name.now)
        names.entry.now ≡ true) }
    ensures some { IfSome result (λ name. Contains (map (λ t. t.now) names.entry.now) name.now
        × (spec.is_member_name metadata.now name.now ≡ false)) }
{
    for name in names {
        if !is_member_name(metadata, name) {
            return Some(name);
        }
    }
    None
}

/// Whether a member of the workspace has the name.
fn is_member_name(metadata: &Metadata, name: &str) -> bool
    ensures { result ≡ spec.is_member_name metadata.now name.now }
{
    let ids = &metadata.workspace.members;
    metadata.packages.iter().any(|package| {
        package.row.name.as_str() == name && is_among(ids, package.row.id.as_str())
    })
}
