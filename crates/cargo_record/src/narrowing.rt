//! Which of several packages a dependency means.

use cargo_metadata::{Dependency, ResolvedDependency};
use semver::{Version, VersionReq};
use std::alloc::{AllocError, Global};
use workspace_record::{PackageRecord, RecordIndex};

/// What a package has in common with the dependency that means it.
#[derive(Clone, Copy)]
enum Mark {
    /// Its library is known under the name that the manifest gives the dependency.
    Name,
    /// Its version meets the requirement.
    Version,
    /// It comes from where the dependency may come from.
    Source,
}

/// The marks, in the order in which they are looked at.
const MARKS: [Mark; 3] = [Mark::Name, Mark::Version, Mark::Source];

/// The package that the dependency means, if these leave one: of entries with several packages each
/// mark leaves those that have it, if some have it.
pub(crate) fn meant<'a>(
    alloc: Global,
    index: &RecordIndex<'_>,
    dependency: &Dependency,
    entries: Vec<&'a ResolvedDependency>,
) -> Result<Option<&'a str>, AllocError> {
    let mut left = entries;
    for mark in &MARKS {
        if only_package(&left).is_none() {
            let marked = marked(alloc, index, dependency, *mark, &left)?;
            if !marked.is_empty() {
                left = marked;
            }
        }
    }
    Ok(only_package(&left))
}

/// The package of all the entries, if they have one.
fn only_package<'a>(entries: &[&'a ResolvedDependency]) -> Option<&'a str> {
    let first = entries.first()?;
    let id = first.package_id.as_str();
    if entries.iter().all(|entry| entry.package_id.as_str() == id) {
        Some(id)
    } else {
        None
    }
}

fn marked<'a>(
    alloc: Global,
    index: &RecordIndex<'_>,
    dependency: &Dependency,
    mark: Mark,
    entries: &[&'a ResolvedDependency],
) -> Result<Vec<&'a ResolvedDependency>, AllocError> {
    let mut marked = Vec::new(alloc);
    for entry in entries {
        if has_mark(alloc, index, dependency, mark, *entry)? {
            marked.push(*entry)?;
        }
    }
    Ok(marked)
}

fn has_mark(
    alloc: Global,
    index: &RecordIndex<'_>,
    dependency: &Dependency,
    mark: Mark,
    entry: &ResolvedDependency,
) -> Result<bool, AllocError> {
    let Some(package) = index.package_of(entry.package_id.as_str()) else {
        return Ok(false);
    };
    match mark {
        Mark::Name => Ok(has_name(dependency, entry)),
        Mark::Version => meets(alloc, dependency, package.row()),
        Mark::Source => Ok(has_source(dependency, package.row())),
    }
}

/// Whether the library's name is the one that the manifest gives, as Rust writes it: with `_` for each
/// `-`.
fn has_name(dependency: &Dependency, entry: &ResolvedDependency) -> bool {
    let Some(name) = &dependency.rename else {
        return true;
    };
    name.len() == entry.name.len()
        && name
            .bytes()
            .zip(entry.name.bytes())
            .all(|(a, b)| a == b || a == b'-' && b == b'_')
}

/// Whether the version of a package meets the requirement of a dependency.
fn meets(alloc: Global, dependency: &Dependency, row: &PackageRecord) -> Result<bool, AllocError> {
    let requirement = VersionReq::parse(alloc, dependency.requirement.as_str());
    let version = Version::parse(alloc, row.version.as_str());
    match (requirement, version) {
        (Ok(requirement), Ok(version)) => Ok(requirement.matches(&version)),
        _ => Ok(true),
    }
}

/// Whether the package comes from the source that the dependency names.
fn has_source(dependency: &Dependency, row: &PackageRecord) -> bool {
    match (&dependency.source, &row.info.source) {
        (Some(wanted), Some(source)) => {
            before_fragment(wanted.as_str()) == before_fragment(source.as_str())
        }
        (None, None) => true,
        _ => false,
    }
}

/// The part of a source before `#`, behind which a commit may stand.
fn before_fragment(source: &str) -> &str {
    match source.split_once("#") {
        Some((front, _)) => front,
        None => source,
    }
}
