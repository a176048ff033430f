//! Which links a table has.

ghost use Rattle.std.specs.Prelude.{◌≡◌};
ghost use Rattle.guppy_package_table.specs.TableLinks.{links_of};

use guppy_package_parts::LinkRow;

/// The links of a table over the rows of a record.
pub enum TableLinks {
    /// Those of the record.
    OfRecord,
    /// Others between its packages.
    Others(Vec<LinkRow>),
}

// Written out, so that a function that lets one go takes one step.
impl Drop for TableLinks {
    fn drop(self) {
        match self {
            TableLinks::OfRecord => {}
            TableLinks::Others(_) => {}
        }
    }
}

impl TableLinks {
    /// The rows of the links, where the record has these.
    pub(crate) fn rows<'t>(&'t self, own: &'t [LinkRow]) -> &'t [LinkRow]
        ensures { result.now ≡ links_of own.entry.now self.entry.now }
    {
        match self {
            TableLinks::OfRecord => own,
            TableLinks::Others(links) => links.as_slice(),
        }
    }
}
