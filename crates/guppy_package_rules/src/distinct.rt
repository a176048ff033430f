//! Keys that stand at an earlier place.

ghost use Rattle.std.specs.Prelude.{◌≡◌, IfOk, map, string_bytes};
ghost use Rattle.std.specs.Ordering.{eq_by_cmp};
ghost use Rattle.std.specs.Str.{bytes_eq};
ghost use Rattle.guppy_package_rules.specs.Places.{first_repeat};
ghost use Rattle.guppy_package_rules.specs.Rules.{is_distinct};

use indexmap::IndexSet;
use std::alloc::{AllocError, Global};
use std::collections::BTreeSet;
use std::hash::Hash;

/// The first place whose key is the same as that of an earlier place.
pub fn first_repeat<K: Eq + Hash + Copy>(
    alloc: Global,
    keys: &[K],
) -> Result<Option<usize>, AllocError>
    ensures { IfOk result (λ place. place ≡ first_repeat K.eq keys.now) }
{
    let mut seen: IndexSet<K> = IndexSet::with_capacity(alloc, keys.len())?;
    for (place, key) in keys.iter().enumerate() {
        if !seen.insert(*key)? {
            return Ok(Some(place));
        }
    }
    Ok(None)
}

/// As `first_repeat`, of keys that have an order and no hash.
pub(crate) fn first_repeat_in_order<K: Ord + Copy>(
    alloc: Global,
    keys: &[K],
) -> Result<Option<usize>, AllocError>
    ensures { IfOk result (λ place. place ≡ first_repeat (eq_by_cmp K.cmp) keys.now) }
{
    let mut seen = BTreeSet::new(alloc);
    for (place, key) in keys.iter().enumerate() {
        if !seen.insert(*key)? {
            return Ok(Some(place));
        }
    }
    Ok(None)
}

/// The first place whose text stands at an earlier place.
pub fn first_repeated_text(alloc: Global, texts: &[&str]) -> Result<Option<usize>, AllocError>
    ensures { IfOk result (λ place. place ≡ first_repeat bytes_eq (map (λ t. t.now) texts.now)) }
{
    first_repeat(alloc, texts)
}

/// Whether no text stands at two places.
pub fn is_distinct(alloc: Global, texts: &[String]) -> Result<bool, AllocError>
    ensures { IfOk result (λ answer. answer ≡ is_distinct (map string_bytes texts.now)) }
{
    let lent: Vec<&str> = texts.iter().map(|text| text.as_str()).collect(alloc)?;
    Ok(first_repeated_text(alloc, &lent)?.is_none())
}
