//! The entries of the packages' features, each with where it stands.

ghost use Rattle.std.specs.Prelude.{◌≡◌, ◌++◌, IfOk, OnOk, map};
ghost use Rattle.std.specs.List.{flat_map};
ghost use Rattle.guppy_feature_demands.specs.EntriesAt.{feature_entries, package_entries};
ghost use Rattle.guppy_feature_demands.specs.EntryAtView.{entry_at_view};
ghost use Rattle.guppy_feature_demands.specs.NamedRows.{named_view};

use crate::hashed_id::HashedId;
use crate::named_entries::{NamedRow, named_entries};
use crate::package_at::PackageAt;
use std::alloc::{AllocError, Global};
use workspace_record::{Entry, entry_of};

/// An entry of a feature's list, the name of the feature, and the id of its package.
#[derive(Clone, Copy)]
pub(crate) struct EntryAt<'g> {
    pub id: HashedId<'g>,
    pub feature: &'g str,
    pub entry: Entry<'g>,
}

/// The entries of these packages' features, of features of one name those of the first.
pub(crate) fn entries_of<'g>(
    alloc: Global,
    packages: &[PackageAt<'g>],
) -> Result<Vec<EntryAt<'g>>, AllocError>
    ensures { IfOk result (λ v. map entry_at_view v.items
        ≡ flat_map package_entries (map (λ p. p.row.now) packages.now)) }
{
    let mut entries: Vec<EntryAt<'g>> = Vec::new(alloc);
    for at in packages {
        push_package(alloc, *at, &mut entries)?;
    }
    Ok(entries)
}

fn push_package<'g>(
    alloc: Global,
    at: PackageAt<'g>,
    entries: &mut Vec<EntryAt<'g>>,
) -> Result<(), AllocError>
    ensures { OnOk result (map entry_at_view entries.new.items
        ≡ map entry_at_view entries.old.items ++ package_entries at.entry.row.now) }
{
    let row = at.row;
    let features = named_entries(alloc, &row.features)?;
    let id = HashedId::of(row.id.as_str());
    let pushed = push_features(id, features.as_slice(), entries);
    drop(features);
    pushed
}

fn push_features<'g>(
    id: HashedId<'g>,
    features: &[NamedRow<'g>],
    entries: &mut Vec<EntryAt<'g>>,
) -> Result<(), AllocError>
    ensures { OnOk result (map entry_at_view entries.new.items
        ≡ map entry_at_view entries.old.items
        ++ flat_map (feature_entries id.entry.text.now) (map named_view features.now)) }
{
    for feature in features {
        push_feature(id, *feature, entries)?;
    }
    Ok(())
}

fn push_feature<'g>(
    id: HashedId<'g>,
    feature: NamedRow<'g>,
    entries: &mut Vec<EntryAt<'g>>,
) -> Result<(), AllocError>
    ensures { OnOk result (map entry_at_view entries.new.items
        ≡ map entry_at_view entries.old.items
        ++ feature_entries id.entry.text.now (named_view feature.entry)) }
{
    let row = feature.row;
    let feature = row.name.as_str();
    let texts: &[String] = &row.enables;
    for text in texts {
        let entry = entry_of(text.as_str());
        entries.push(EntryAt { id, feature, entry })?;
    }
    Ok(())
}
