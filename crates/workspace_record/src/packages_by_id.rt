//! The packages of a record by their ids; of packages with one id the first counts.

ghost use Rattle.std.specs.Prelude.{◌≡◌, ◌++◌, ◌∷◌, [], List, OnOk, IfOk};
ghost use Rattle.workspace_record.specs.Records.{Package};
ghost use Rattle.workspace_record.specs.Indices.{FindsPackages};

use crate::package::PackageRecord;
use crate::package_index::PackageIndex;
use indexmap::IndexMap;
use std::alloc::{AllocError, Global};

pub(crate) fn packages_by_id<'a>(
    alloc: Global,
    packages: &'a [PackageRecord],
) -> Result<IndexMap<&'a str, PackageIndex<'a>>, AllocError>
    ensures { IfOk result (FindsPackages packages.entry.now) }
{
    let mut found: IndexMap<&'a str, PackageIndex<'a>> = IndexMap::with_capacity(
        alloc,
        packages.len(),
    )?;
    for row in packages {
        add_package(alloc, &mut found, row)?;
    }
    Ok(found)
}

fn add_package<'a>(
    alloc: Global,
    found: &mut IndexMap<&'a str, PackageIndex<'a>>,
    row: &'a PackageRecord,
) -> Result<(), AllocError>
    ensures { OnOk result ((rows : List Package) → FindsPackages rows found.old
        → FindsPackages (rows ++ row.entry.now ∷ []) found.new) }
{
    let id = row.id.as_str();
    if !found.contains_key(id) {
        let package = PackageIndex::of(alloc, row)?;
        drop(found.insert(id, package)?);
    }
    Ok(())
}
