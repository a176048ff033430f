//! Copies and comparisons of the texts that records hold.

ghost use Rattle.std.specs.Prelude.{◌≡◌, IfOk, Ok, map, option_map, string_bytes};
ghost use Rattle.std.specs.Fn.{FnReturnsAt};
ghost use Rattle.std.specs.Option.{option_eq};
ghost use Rattle.std.specs.Cmp.Lexicographic.{pointwise};
ghost use Rattle.workspace_record.specs.Equality.{text_eq};

use std::alloc::{AllocError, Global};

/// Copies each item, in order.
pub(crate) fn copy_each<T: Drop, F: Fn(&T) -> Result<T, AllocError>>(
    alloc: Global,
    items: &[T],
    copy: F,
) -> Result<Vec<T>, AllocError>
    requires callable { F.IsAlwaysCallable copy }
    requires copies { (x y : T) → FnReturnsAt F.Fn copy x (Ok y) → y ≡ x }
    ensures { IfOk result (λ v. v.items ≡ items.now) }
{
    let mut copies = Vec::with_capacity(alloc, items.len())?;
    for item in items {
        copies.push(copy(item)?)?;
    }
    Ok(copies)
}

pub(crate) fn copy_text(alloc: Global, text: &Option<String>) -> Result<Option<String>, AllocError>
    ensures { IfOk result (λ t. option_map string_bytes t ≡ option_map string_bytes text.now) }
{
    match text {
        None => Ok(None),
        Some(text) => Ok(Some(String::from_str(alloc, text.as_str())?)),
    }
}

pub(crate) fn same_texts(a: &[String], b: &[String]) -> bool
    ensures { result ≡ pointwise text_eq (map string_bytes a.now) (map string_bytes b.now) }
{
    a == b
}

pub(crate) fn same_text(a: &Option<String>, b: &Option<String>) -> bool
    ensures { result ≡ option_eq text_eq (option_map string_bytes a.now)
        (option_map string_bytes b.now) }
{
    match (a, b) {
        (None, None) => true,
        (Some(a), Some(b)) => a == b,
        _ => false,
    }
}
