//! Sets of texts that a record lends.

ghost use Rattle.std.specs.Prelude.{◌≡◌, IfOk};
ghost use Rattle.std.specs.Borrow.{Bor};
ghost use Rattle.std.specs.Fn.{FnReturnsAt};
ghost use Rattle.std.specs.List.{list_any};
ghost use Rattle.std.specs.Str.{bytes_eq};
ghost use Rattle.workspace_record.specs.Records.{Text};
ghost use Rattle.workspace_record.specs.TextSets.{has_text};

use indexmap::IndexSet;
use std::alloc::{AllocError, Global};

/// The text that each item lends, as a set.
pub(crate) fn text_set<'a, T, F: Fn(&'a T) -> &'a str>(
    alloc: Global,
    items: &'a [T],
    text: F,
) -> Result<IndexSet<&'a str>, AllocError>
    requires { F.IsAlwaysCallable text }
    ensures { IfOk result (λ set. (name : T → Text)
        → ((y : T) (t : Bor Text) → FnReturnsAt F.Fn text y t → t.now ≡ name y) → (x : Text)
        → has_text set x ≡ list_any (λ y. bytes_eq x (name y)) items.entry.now) }
{
    let mut set = IndexSet::with_capacity(alloc, items.len())?;
    for item in items {
        set.insert(text(item))?;
    }
    Ok(set)
}
