//! The members in order.

ghost use Rattle.std.specs.Prelude.{◌≡◌, All, IfOk, map};
ghost use Rattle.list_facts.specs.Ascending.{text_cmp};
ghost use Rattle.guppy_package_rules.specs.Kept.{AreKept};
ghost use Rattle.guppy_package_rules.specs.Paths.{path_cmp};
ghost use Rattle.guppy_package_table.specs.Members.{AreByName, AreByPath, name_at, order_by, path_at};

use crate::member_texts::{name_at, path_at};
use crate::table::PackageTable;
use guppy_package_rules::compare_paths;
use std::alloc::{AllocError, Global};
use std::cmp::Ordering;

/// The places of the members in both orders.
pub struct MemberOrders {
    /// Ascending by the components of their paths.
    pub by_path: Vec<usize>,
    /// Ascending by the names of their packages.
    pub by_name: Vec<usize>,
}

// Written out, so that a function that lets one go takes one step.
impl Drop for MemberOrders {
    fn drop(self) {
        let MemberOrders {
            by_path: _,
            by_name: _,
        } = self;
    }
}

/// The members of a table in both orders.
pub fn member_orders(alloc: Global, table: &PackageTable) -> Result<MemberOrders, AllocError>
    requires { AreKept table.now.packages table.now.links table.now.workspace }
    ensures by_path { IfOk result (λ members. AreByPath table.now members.by_path.items) }
    ensures by_name { IfOk result (λ members. AreByName table.now members.by_name.items) }
{
    let by_path = members_by_path(alloc, table)?;
    let by_name = members_by_name(alloc, table)?;
    Ok(MemberOrders { by_path, by_name })
}

/// The places of the members, ascending by the components of their paths. Each path is looked up once,
/// before the sort.
fn members_by_path(alloc: Global, table: &PackageTable) -> Result<Vec<usize>, AllocError>
    requires { AreKept table.now.packages table.now.links table.now.workspace }
    ensures ordered { IfOk result (λ places. AreByPath table.now places.items) }
{
    let mut members = with_paths(alloc, table, table.members())?;
    members.sort_unstable_by(
        |a: &(&str, usize), b: &(&str, usize)| -> Ordering
            ensures { result ≡ path_cmp a.now.0.now b.now.0.now }
        { compare_paths(a.0, b.0) },
    );
    let places: Vec<usize> = members.iter().map(|member| member.1).collect(alloc)?;
    Ok(places)
}

/// The places of the members, ascending by the names of their packages.
fn members_by_name(alloc: Global, table: &PackageTable) -> Result<Vec<usize>, AllocError>
    requires { AreKept table.now.packages table.now.links table.now.workspace }
    ensures ordered { IfOk result (λ places. AreByName table.now places.items) }
{
    let mut places = Vec::from_slice(alloc, table.members())?;
    places.sort_unstable_by(
        |a: &usize, b: &usize| -> Ordering
            ensures { result ≡ order_by text_cmp (name_at table.entry.now) a.now b.now }
        { name_at(table, *a).cmp(name_at(table, *b)) },
    );
    Ok(places)
}

// The path of the member at each place, beside the place.
fn with_paths<'t>(
    alloc: Global,
    table: &'t PackageTable,
    places: &[usize],
) -> Result<Vec<(&'t str, usize)>, AllocError>
    ensures places { IfOk result (λ members. map (λ m. m.1) members.items ≡ places.now) }
    ensures paths { IfOk result (λ members.
        All (λ m. m.0.now ≡ path_at table.entry.now m.1) members.items) }
{
    let mut members = Vec::with_capacity(alloc, places.len())?;
    for place in places {
        members.push((path_at(table, *place), *place))?;
    }
    Ok(members)
}
