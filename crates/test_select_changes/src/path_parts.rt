//! Paths as lists of their parts.

ghost use Rattle.std.specs.Prelude.{◌≡◌, ◌↔◌, IfOk, List, Some};
ghost use Rattle.workspace_record.specs.Records.{Text};
ghost use Rattle.guppy_package_rules.specs.Paths.{parts};
ghost use Rattle.test_select_changes.specs.Changes.{IsBelow};
ghost use Rattle.test_select_changes.specs.PartViews.{found_parts, lent_parts};

use guppy_package_rules::{is_part, is_relative};
use std::alloc::{AllocError, Global};

/// The parts of a path, lent from it: what stands between slashes, but nothing empty and no `.`.
pub fn parts_of<'a>(alloc: Global, path: &'a str) -> Result<Vec<&'a str>, AllocError>
    ensures { IfOk result (λ found. lent_parts found.items ≡ parts path.entry.now) }
{
    let mut parts = Vec::new(alloc);
    for part in path.split('/') {
        if is_part(part) {
            parts.push(part)?;
        }
    }
    Ok(parts)
}

/// What an absolute path has behind the parts of an absolute root, where it begins with them.
pub fn parts_below<'a>(
    alloc: Global,
    root: &'a str,
    path: &'a str,
) -> Result<Option<Vec<&'a str>>, AllocError>
    ensures { IfOk result (λ found. (more : List Text) → IsBelow root.entry.now path.entry.now more
        ↔ (found_parts found ≡ Some more)) }
{
    if is_relative(root) || is_relative(path) {
        return Ok(None);
    }
    let outer = parts_of(alloc, root)?;
    let inner = parts_of(alloc, path)?;
    match inner.strip_prefix(&outer) {
        Some(more) => Ok(Some(Vec::from_slice(alloc, more)?)),
        None => Ok(None),
    }
}
