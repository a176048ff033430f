//! Pairs of texts in ascending order, which they mostly have already.

ghost use Rattle.std.specs.Prelude.{◌≡◌, IfOk, true, map};
ghost use Rattle.std.specs.List.Sorted.{IsStrictlySortedBy};
ghost use Rattle.std.specs.Ordering.{is_lt};
ghost use Rattle.list_facts.specs.Ascending.{IsAscendingOf, pair_cmp};
ghost use Rattle.list_facts.specs.Texts.{pair_of};

use list_facts::sorted_pairs;
use std::alloc::AllocError;

// Binaries are planned in the order of their ids, so what is chosen ascends as it is made; it is sorted only
// where it does not.
/// The pairs, each once, by their first texts, those with one first text by their second. Pairs that
/// ascend are left as they are.
pub(crate) fn ascending_pairs(
    pairs: Vec<(String, String)>,
) -> Result<Vec<(String, String)>, AllocError>
    ensures { IfOk result (λ v. IsAscendingOf pair_cmp (map pair_of pairs.items)
        (map pair_of v.items)) }
{
    if ascend(&pairs) {
        Ok(pairs)
    } else {
        sorted_pairs(pairs)
    }
}

/// Whether each pair is below the next.
fn ascend(pairs: &[(String, String)]) -> bool
    ensures { result ≡ true → IsStrictlySortedBy pair_cmp (map pair_of pairs.now) }
{
    for place in 1..pairs.len() {
        if !is_below(&pairs[place - 1], &pairs[place]) {
            return false;
        }
    }
    true
}

/// Whether the one pair is below the other. The tests of a binary follow one another, so the first texts
/// are mostly one.
fn is_below(one: &(String, String), other: &(String, String)) -> bool
    ensures { result ≡ is_lt (pair_cmp (pair_of one.now) (pair_of other.now)) }
{
    if one.0 == other.0 {
        one.1 < other.1
    } else {
        one.0 < other.0
    }
}
