//! What a dependency was resolved to.

ghost use Rattle.std.specs.Prelude.{◌≡◌, ◌&&◌, IfNone, IfSome, false, true, bytes_eq, IfOk, string_bytes, option_map};
ghost use Rattle.std.specs.List.{list_any};
ghost use Rattle.cargo_record.specs.Fitting as spec;

use crate::narrowing::meant;
use cargo_metadata::{Dependency, ResolvedDependency, ResolvedKind};
use std::alloc::{AllocError, Global};
use workspace_record::{LineRecord, RecordIndex};

/// What a dependency was resolved to.
#[derive(Clone, Copy)]
pub(crate) enum Resolution<'a> {
    Nothing,
    /// The package with this id.
    To(&'a str),
    /// One of several packages.
    Several,
}

/// What a dependency was resolved to, by the entries of its package.
pub(crate) fn resolved_to<'a>(
    alloc: Global,
    index: &RecordIndex<'_>,
    dependency: &Dependency,
    entries: &'a [ResolvedDependency],
) -> Result<Resolution<'a>, AllocError>
    ensures { IfOk result (λ r. spec.IsResolution index.now dependency.now entries.entry.now r) }
{
    let Some(first) = first_fitting(index, dependency, entries) else {
        return Ok(Resolution::Nothing);
    };
    let fitting = fitting(alloc, index, dependency, entries)?;
    match meant(alloc, index, dependency, fitting)? {
        // What was chosen is looked at once more, so that it fits however it was chosen.
        Some(id) if some_fits_to(index, dependency, entries, id) => Ok(Resolution::To(id)),
        _ if several_fit(index, dependency, entries) => Ok(Resolution::Several),
        _ => Ok(Resolution::To(first)),
    }
}

/// The package of the first entry that fits a dependency.
fn first_fitting<'a>(
    index: &RecordIndex<'_>,
    dependency: &Dependency,
    entries: &'a [ResolvedDependency],
) -> Option<&'a str>
    ensures none { IfNone result (list_any (spec.fits index.now dependency.now) entries.entry.now
        ≡ false) }
    ensures some { IfSome result (λ id. list_any (spec.fits_to index.now dependency.now id.now)
        entries.entry.now ≡ true) }
{
    for entry in entries {
        if fits(index, dependency, entry) {
            return Some(entry.package_id.as_str());
        }
    }
    None
}

/// Whether entries of more than one package fit a dependency.
fn several_fit(
    index: &RecordIndex<'_>,
    dependency: &Dependency,
    entries: &[ResolvedDependency],
) -> bool
    ensures { result ≡ spec.several_fit index.now dependency.now entries.now }
{
    entries.iter().any(|entry| {
        fits(index, dependency, entry)
            && another_fits(index, dependency, entries, entry.package_id.as_str())
    })
}

fn another_fits(
    index: &RecordIndex<'_>,
    dependency: &Dependency,
    entries: &[ResolvedDependency],
    id: &str,
) -> bool
    ensures { result ≡ list_any (spec.fits_another index.now dependency.now id.now) entries.now }
{
    entries.iter().any(|entry| entry.package_id.as_str() != id && fits(index, dependency, entry))
}

fn some_fits_to(
    index: &RecordIndex<'_>,
    dependency: &Dependency,
    entries: &[ResolvedDependency],
    id: &str,
) -> bool
    ensures { result ≡ list_any (spec.fits_to index.now dependency.now id.now) entries.now }
{
    entries.iter().any(|entry| entry.package_id.as_str() == id && fits(index, dependency, entry))
}

/// The entries that fit a dependency.
fn fitting<'a>(
    alloc: Global,
    index: &RecordIndex<'_>,
    dependency: &Dependency,
    entries: &'a [ResolvedDependency],
) -> Result<Vec<&'a ResolvedDependency>, AllocError> {
    let mut fitting = Vec::new(alloc);
    for entry in entries {
        if fits(index, dependency, entry) {
            fitting.push(entry)?;
        }
    }
    Ok(fitting)
}

/// Whether an entry is of a package with the dependency's name, in its section and for its platform.
fn fits(index: &RecordIndex<'_>, dependency: &Dependency, entry: &ResolvedDependency) -> bool
    ensures { result ≡ spec.fits index.now dependency.now entry.now }
{
    has_kind(&entry.kinds, &dependency.line)
        && is_named(
            index,
            entry.package_id.as_str(),
            dependency.package_name.as_str(),
        )
}

fn is_named(index: &RecordIndex<'_>, id: &str, name: &str) -> bool
    ensures { result ≡ spec.is_named index.now id.now name.now }
{
    match index.package_of(id) {
        Some(package) => package.row().name.as_str() == name,
        None => false,
    }
}

fn has_kind(kinds: &[ResolvedKind], line: &LineRecord) -> bool
    ensures { result ≡ list_any (spec.is_kind line.now) kinds.now }
{
    kinds.iter().any(|kind| kind.kind == line.kind && is_spec(&kind.spec, &line.spec))
}

fn is_spec(first: &Option<String>, second: &Option<String>) -> bool
    ensures { result ≡ spec.is_spec (option_map string_bytes first.now)
        (option_map string_bytes second.now) }
{
    match (first, second) {
        (Some(first), Some(second)) => first.as_str() == second.as_str(),
        (None, None) => true,
        _ => false,
    }
}
