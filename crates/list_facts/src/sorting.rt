//! Texts and pairs of texts, copied and put in ascending order.

ghost use Rattle.std.specs.Prelude.{◌≡◌, IfOk, map};
ghost use Rattle.list_facts.specs.Ascending.{IsAscendingOf, text_cmp, pair_cmp};
ghost use Rattle.list_facts.specs.Texts.{texts, pair_of};

use std::alloc::{AllocError, Global};

/// Copies each text, in order.
pub fn copy_texts(alloc: Global, names: &[String]) -> Result<Vec<String>, AllocError>
    ensures { IfOk result (λ v. texts v.items ≡ texts names.now) }
{
    let mut copies = Vec::with_capacity(alloc, names.len())?;
    for name in names {
        copies.push(String::from_str(alloc, name.as_str())?)?;
    }
    Ok(copies)
}

/// Sorts the texts byte by byte and drops the repeats.
pub fn sorted_texts(mut names: Vec<String>) -> Result<Vec<String>, AllocError>
    ensures { IfOk result (λ v. IsAscendingOf text_cmp (texts names.items) (texts v.items)) }
{
    names.sort()?;
    names.dedup();
    Ok(names)
}

/// Sorts the pairs by their first texts, those with one first text by their second, and drops the
/// repeats.
pub fn sorted_pairs(mut pairs: Vec<(String, String)>) -> Result<Vec<(String, String)>, AllocError>
    ensures { IfOk result (λ v. IsAscendingOf pair_cmp (map pair_of pairs.items)
        (map pair_of v.items)) }
{
    pairs.sort()?;
    pairs.dedup();
    Ok(pairs)
}
