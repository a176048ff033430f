//! Whether a listing is well-formed.

ghost use Rattle.std.specs.Prelude.{◌≡◌, [], IsTrue, IfOk, true, ◌↔◌, nat_eq, string_bytes};
ghost use Rattle.std.specs.List.{list_any};
ghost use Rattle.std.specs.List.Sorted.{IsStrictlySortedBy};
ghost use Rattle.list_facts.specs.Ascending.{text_cmp};
ghost use Rattle.list_facts.specs.Texts.{texts};
ghost use Rattle.nextest_binaries.specs.Listings.{HasLineFeed, HasRepeat, FindsFault};

use crate::fault::ListingFault;
use indexmap::IndexSet;
use std::alloc::{AllocError, Global};

pub(crate) fn fault_of(alloc: Global, names: &[String]) -> Result<Option<ListingFault>, AllocError>
    ensures { IfOk result (λ fault. FindsFault (texts names.now) fault) }
{
    if has_line_feed(names) {
        return Ok(Some(ListingFault::LineFeed));
    }
    if has_repeat(alloc, names)? {
        return Ok(Some(ListingFault::RepeatedName));
    }
    Ok(None)
}

fn has_line_feed(names: &[String]) -> bool
    ensures { result ≡ list_any (λ name. list_any (λ b. nat_eq b 10) (string_bytes name))
        names.now }
{
    names.iter().any(|name| name.as_bytes().contains(&b'\n'))
}

fn has_repeat(alloc: Global, names: &[String]) -> Result<bool, AllocError>
    ensures { IfOk result (λ found. IsTrue found ↔ HasRepeat (texts names.now)) }
{
    if names_ascend(names) {
        return Ok(false);
    }
    let mut seen: IndexSet<&str> = IndexSet::with_capacity(alloc, names.len())?;
    let found = finds_repeat(&mut seen, names);
    drop(seen);
    found
}

/// Whether a name stands twice, by putting the names into an empty set.
fn finds_repeat<'a>(seen: &mut IndexSet<&'a str>, names: &'a [String]) -> Result<bool, AllocError>
    requires { seen.old.keys ≡ [] }
    ensures { IfOk result (λ found. IsTrue found ↔ HasRepeat (texts names.entry.now)) }
{
    for name in names {
        if !seen.insert(name.as_str())? {
            return Ok(true);
        }
    }
    Ok(false)
}

/// Whether each name is below the next, byte by byte, as test harnesses list them. No such name stands
/// twice.
pub fn names_ascend(names: &[String]) -> bool
    ensures ascending { IsTrue result ↔ IsStrictlySortedBy text_cmp (texts names.now) }
{
    for place in 1..names.len() {
        if names[place - 1] >= names[place] {
            return false;
        }
    }
    true
}
