//! Members found by halving.

ghost use Rattle.std.specs.Prelude.{◌≡◌, ◌<◌, IfSome, length};
ghost use Rattle.list_facts.specs.Ascending.{text_cmp};
ghost use Rattle.guppy_package_rules.specs.Paths.{path_cmp};
ghost use Rattle.guppy_package_table.specs.Members.{AreByName, AreByPath, member_at_path, member_called, name_at, path_at};

use crate::member_texts::{name_at, path_at};
use crate::table::PackageTable;
use guppy_package_rules::compare_paths;
use std::cmp::Ordering;

/// The place of the member with a path, among the members by path.
pub fn find_by_path(table: &PackageTable, by_path: &[usize], path: &str) -> Option<usize>
    requires { AreByPath table.now by_path.now }
    ensures value { result ≡ member_at_path table.now path.now }
    ensures within { IfSome result (λ v. v < length table.now.packages) }
{
    let found = by_path.binary_search_by(
        |place: &usize| -> Ordering
            ensures { result ≡ path_cmp (path_at table.entry.now place.now) path.entry.now }
        { compare_paths(path_at(table, *place), path) },
    );
    match found {
        Ok(i) => Some(by_path[i]),
        Err(_) => None,
    }
}

/// The place of the member with a name, among the members by name.
pub fn find_by_name(table: &PackageTable, by_name: &[usize], name: &str) -> Option<usize>
    requires { AreByName table.now by_name.now }
    ensures value { result ≡ member_called table.now name.now }
    ensures within { IfSome result (λ v. v < length table.now.packages) }
{
    let found = by_name.binary_search_by(
        |place: &usize| -> Ordering
            ensures { result ≡ text_cmp (name_at table.entry.now place.now) name.entry.now }
        { name_at(table, *place).cmp(name) },
    );
    match found {
        Ok(i) => Some(by_name[i]),
        Err(_) => None,
    }
}
