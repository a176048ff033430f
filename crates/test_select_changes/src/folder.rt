//! Folders with the names of packages.

ghost use Rattle.std.specs.Prelude.{◌≡◌};
ghost use Rattle.test_select_changes.specs.PartViews.{lent_parts, parts_cmp};

use std::cmp::Ordering;
use std::marker::Model;

/// The parts of a folder, with the name of a package that has its files there.
#[derive(Drop)]
pub struct Folder<'g> {
    parts: Vec<&'g str>,
    name: &'g str,
}

impl<'g> Model for Folder<'g> {
    ghost use Rattle.test_select_changes.specs.Folders.{NamedFolder};
    ghost use Rattle.test_select_changes.specs.PartViews.{lent_parts};

    ghost Value = { NamedFolder };

    ghost view = { λ f. record { parts = lent_parts f.parts.items; name = f.name.now } };
}

impl<'g> Folder<'g> {
    /// The folder of these parts, of the package of this name.
    pub fn of(parts: Vec<&'g str>, name: &'g str) -> Folder<'g>
        ensures { result ≡ record { parts = lent_parts parts.entry.items; name = name.entry.now } }
    {
        Folder { parts, name }
    }

    /// The package's name.
    pub fn name(&self) -> &str
        ensures { result.now ≡ self.now.name }
    {
        self.name
    }

    /// How the folder stands to one of these parts: part by part, each byte by byte.
    pub fn compare_to(&self, parts: &[&str]) -> Ordering
        ensures { result ≡ parts_cmp self.now.parts (lent_parts parts.now) }
    {
        compare_parts(&self.parts, parts)
    }

    /// How the folder stands to another one.
    pub fn compare(&self, other: &Folder<'_>) -> Ordering
        ensures { result ≡ parts_cmp self.now.parts other.now.parts }
    {
        compare_parts(&self.parts, &other.parts)
    }
}

fn compare_parts(a: &[&str], b: &[&str]) -> Ordering
    ensures { result ≡ parts_cmp (lent_parts a.now) (lent_parts b.now) }
{
    a.cmp(b)
}
