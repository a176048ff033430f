//! What members are found by.

ghost use Rattle.std.specs.Prelude.{◌≡◌};
ghost use Rattle.guppy_package_table.specs.Members as members;

use crate::table::PackageTable;

/// The path of the member at a place, and nothing where no member is there.
pub fn path_at(table: &PackageTable, place: usize) -> &str
    ensures { result.now ≡ members.path_at table.now place }
{
    let id = match table.ids().get(place) {
        Some(id) => id.repr(),
        None => "",
    };
    match table.member(id) {
        Some(member) => member.path.as_str(),
        None => "",
    }
}

/// The name of the package at a place, and nothing past the last.
pub fn name_at(table: &PackageTable, place: usize) -> &str
    ensures { result.now ≡ members.name_at table.now place }
{
    match table.packages().get(place) {
        Some(row) => row.name.as_str(),
        None => "",
    }
}
