//! Rows of packages with their ids.

ghost use Rattle.std.specs.Prelude.{◌≡◌};

use guppy_package_parts::{PackageId, PackageRow};

/// A package's row, with the package's id.
#[derive(Clone, Copy)]
pub struct PackageAt<'g> {
    pub id: &'g PackageId,
    pub row: &'g PackageRow,
    ghost same_id: { id.now ≡ row.now.id },
}

impl<'g> PackageAt<'g> {
    /// The row of the package with this id.
    pub fn new(id: &'g PackageId, row: &'g PackageRow) -> PackageAt<'g>
        requires same_id { id.now ≡ row.now.id }
        ensures row { result.row.now ≡ row.entry.now }
    {
        PackageAt { id, row }
    }
}
