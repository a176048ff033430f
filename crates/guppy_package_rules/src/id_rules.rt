//! The ids of packages.

ghost use Rattle.std.specs.Prelude.{◌≡◌, IfOk, map};
ghost use Rattle.std.specs.Str.{bytes_eq};
ghost use Rattle.guppy_package_rules.specs.Places.{first_repeat};
ghost use Rattle.guppy_package_rules.specs.Found.{HoldsTexts};

use crate::distinct::first_repeated_text;
use crate::text_sets::text_set;
use indexmap::IndexSet;
use std::alloc::{AllocError, Global};
use workspace_record::PackageRecord;

/// The first package whose id is that of an earlier one.
pub(crate) fn first_repeated_id(
    alloc: Global,
    packages: &[PackageRecord],
) -> Result<Option<usize>, AllocError>
    ensures { IfOk result (λ place. place ≡ first_repeat bytes_eq (map (λ p. p.id) packages.now)) }
{
    let ids = package_ids(alloc, packages)?;
    first_repeated_text(alloc, &ids)
}

fn package_ids<'a>(alloc: Global, packages: &'a [PackageRecord]) -> Result<Vec<&'a str>, AllocError>
    ensures { IfOk result (λ v. map (λ t. t.now) v.items ≡ map (λ p. p.id) packages.entry.now) }
{
    packages.iter().map(|row| row.id.as_str()).collect(alloc)
}

/// The ids of the packages as a set.
pub(crate) fn package_id_set<'a>(
    alloc: Global,
    packages: &'a [PackageRecord],
) -> Result<IndexSet<&'a str>, AllocError>
    ensures { IfOk result (λ set. HoldsTexts set (map (λ p. p.id) packages.entry.now)) }
{
    let ids = package_ids(alloc, packages)?;
    text_set(alloc, &ids)
}
