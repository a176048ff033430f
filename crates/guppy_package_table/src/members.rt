//! Which packages are members of the workspace.

ghost use Rattle.std.specs.Prelude.{◌≡◌, ◌≢◌, AllPairs, IfOk, map, option_copied, slice_get, string_bytes};
ghost use Rattle.guppy_package_table.specs.MemberPlaces.{AreMembers};
ghost use Rattle.guppy_package_table.specs.Tables.{place_among};

use crate::package_ids::{insert_id, place_of_id};
use guppy_package_parts::{MemberRow, PackageId, WorkspaceRow};
use indexmap::IndexSet;
use std::alloc::{AllocError, Global};

/// The members of the workspace.
#[derive(Drop)]
pub struct Members {
    /// The ids of the members' packages, each at the place of its member.
    pub ids: IndexSet<PackageId>,
    /// The number of each package's member; the number of members where it has none.
    pub numbers: Vec<usize>,
    /// The place of each member's package.
    pub places: Vec<usize>,
    /// The place of each default member's package.
    pub defaults: Vec<usize>,
}

/// The members of a workspace among packages with these ids.
pub(crate) fn members_of(
    alloc: Global,
    ids: &IndexSet<PackageId>,
    workspace: &WorkspaceRow,
) -> Result<Members, AllocError>
    requires { AllPairs (λ a b. a.package_id ≢ b.package_id) workspace.now.members }
    ensures { IfOk result (AreMembers ids.now.keys workspace.now) }
{
    let places = member_places(alloc, ids, &workspace.members)?;
    let defaults = default_places(alloc, ids, &workspace.default_members)?;
    let member_ids = member_ids_of(alloc, &workspace.members)?;
    match member_numbers(alloc, &member_ids, ids.as_slice()) {
        Ok(numbers) => Ok(Members {
            ids: member_ids,
            numbers,
            places,
            defaults,
        }),
        Err(refused) => {
            drop(member_ids);
            Err(refused)
        }
    }
}

/// The ids of the members' packages, each at the place of its member.
fn member_ids_of(alloc: Global, members: &[MemberRow]) -> Result<IndexSet<PackageId>, AllocError>
    requires { AllPairs (λ a b. a.package_id ≢ b.package_id) members.now }
    ensures { IfOk result (λ ids. ids.keys ≡ map (λ m. m.package_id) members.now) }
{
    let mut ids = IndexSet::with_capacity(alloc, members.len())?;
    for member in members {
        insert_id(alloc, &mut ids, member.package.as_str())?;
    }
    Ok(ids)
}

/// The number of each package's member among those whose packages have these ids.
fn member_numbers(
    alloc: Global,
    members: &IndexSet<PackageId>,
    package_ids: &[PackageId],
) -> Result<Vec<usize>, AllocError>
    ensures { IfOk result (λ numbers. numbers.items
        ≡ map (place_among members.now.keys) package_ids.now) }
{
    package_ids
        .iter()
        .map(|id| place_of_id(members, id.repr()))
        .collect(alloc)
}

/// The place of each member's package.
fn member_places(
    alloc: Global,
    ids: &IndexSet<PackageId>,
    members: &[MemberRow],
) -> Result<Vec<usize>, AllocError>
    ensures { IfOk result (λ places. places.items
        ≡ map (λ m. place_among ids.now.keys m.package_id) members.now) }
{
    members
        .iter()
        .map(|member| place_of_id(ids, member.package.as_str()))
        .collect(alloc)
}

/// The place of each default member's package.
fn default_places(
    alloc: Global,
    ids: &IndexSet<PackageId>,
    members: &[String],
) -> Result<Vec<usize>, AllocError>
    ensures { IfOk result (λ places. places.items
        ≡ map (λ m. place_among ids.now.keys (string_bytes m)) members.now) }
{
    members
        .iter()
        .map(|member| place_of_id(ids, member.as_str()))
        .collect(alloc)
}

/// The member with a number, if there is one.
pub(crate) fn member_at(members: &[MemberRow], number: usize) -> Option<&MemberRow>
    ensures { option_copied result ≡ slice_get members.now number }
{
    members.get(number)
}
