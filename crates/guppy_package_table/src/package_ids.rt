//! Package ids, each found by its text.

ghost use Rattle.std.specs.Prelude.{◌≡◌, ◌≢◌, AllPairs, IfOk, OnOk, map, position, slice_get, option_copied};
ghost use Rattle.std.specs.List.{position_or_len};
ghost use Rattle.std.specs.Str.{bytes_eq};
ghost use Rattle.indexmap.specs.IndexSet.{insert_key};
ghost use Rattle.workspace_record.specs.Equality.{text_eq};

use guppy_package_parts::{PackageId, PackageRow};
use indexmap::{Equivalent, IndexSet};
use std::alloc::{AllocError, Global};

/// The text of an id, which is looked up in its place.
#[derive(Clone, Copy, PartialEq, Eq, Hash)]
struct IdText<'a> {
    text: &'a str,
}

impl Equivalent<PackageId> for IdText<'_> {
    ghost use Rattle.std.proofs.Common.{ap};
    ghost use Rattle.std.specs.Cmp.Lexicographic.{bytes_decides, nat_list_eq_equiv};
    ghost use Rattle.std.specs.Hash as fed;
    ghost use Rattle.std.specs.Str.{bytes_eq};

    ghost equivalent = { λ q k. bytes_eq q.text.now k };

    ghost respects_hash = { λ q k h. ap fed.str ((bytes_decides q.text.now k).0 h) };

    ghost respects_eq = { λ q x y. nat_list_eq_equiv.congr q.text.now x y };

    fn equivalent(&self, key: &PackageId) -> bool {
        self.text == key.repr()
    }
}

/// The ids of packages, each at the place of its package.
pub(crate) fn ids_of(
    alloc: Global,
    packages: &[PackageRow],
) -> Result<IndexSet<PackageId>, AllocError>
    requires { AllPairs (λ a b. a.id ≢ b.id) packages.now }
    ensures { IfOk result (λ ids. ids.keys ≡ map (λ p. p.id) packages.now) }
{
    let mut ids = IndexSet::with_capacity(alloc, packages.len())?;
    for row in packages {
        insert_id(alloc, &mut ids, row.id.as_str())?;
    }
    Ok(ids)
}

pub(crate) fn insert_id(
    alloc: Global,
    ids: &mut IndexSet<PackageId>,
    text: &str,
) -> Result<(), AllocError>
    ensures { OnOk result (ids.new.keys ≡ insert_key text_eq ids.old.keys text.now) }
{
    let id = PackageId::new(String::from_str(alloc, text)?);
    ids.insert(id)?;
    Ok(())
}

/// The place of the package with this id.
pub(crate) fn find_id(ids: &IndexSet<PackageId>, text: &str) -> Option<usize>
    ensures { result ≡ position (bytes_eq text.now) ids.now.keys }
{
    ids.get_index_of(IdText { text })
}

/// The place of the package with this id, or the number of packages.
pub(crate) fn place_of_id(ids: &IndexSet<PackageId>, text: &str) -> usize
    ensures { result ≡ position_or_len (bytes_eq text.now) ids.now.keys }
{
    match find_id(ids, text) {
        Some(place) => place,
        None => ids.len(),
    }
}
