//! Texts found without a walk over their list.

ghost use Rattle.std.specs.Prelude.{IfOk, map};
ghost use Rattle.guppy_package_rules.specs.Found.{HoldsTexts};

use indexmap::IndexSet;
use std::alloc::{AllocError, Global};

/// The texts as a set.
pub fn text_set<'a>(alloc: Global, texts: &[&'a str]) -> Result<IndexSet<&'a str>, AllocError>
    ensures { IfOk result (λ set. HoldsTexts set (map (λ t. t.now) texts.now)) }
{
    let mut set: IndexSet<&'a str> = IndexSet::with_capacity(alloc, texts.len())?;
    for text in texts {
        set.insert(*text)?;
    }
    Ok(set)
}
