//! The folders in which one path lies.

ghost use Rattle.std.specs.Prelude.{◌≡◌, ◌↔◌, ◌⊎◌, [], Contains, IfOk, IsTrue, map, option_map};
ghost use Rattle.nextest_filter_matchers.specs.Matchers.{tokens_of};
ghost use Rattle.test_select_changes.specs.Folders.{AreInOrder};
ghost use Rattle.test_select_changes.specs.Listings.{IsFoundAround};

use crate::folder::Folder;
use crate::innermost::innermost;
use crate::looking::is_looked_at;
use crate::path_parts::parts_of;
use nextest_filter_matchers::GenericGlob;
use std::alloc::{AllocError, Global};

/// The longest folders in which a path lies, none where it is not looked at; or `None` where it
/// stands for all packages.
pub fn folders_around<'f, 'g>(
    alloc: Global,
    folders: &'f [Folder<'g>],
    ignored: &[GenericGlob],
    path: &str,
) -> Result<Option<&'f [Folder<'g>]>, AllocError>
    requires { AreInOrder folders.now }
    ensures { IfOk result (λ found. IsFoundAround folders.entry.now
        (map (λ glob. tokens_of glob) ignored.now) path.now
        (option_map (λ around. map (λ folder. folder.name) around.now) found)) }
{
    let parts = parts_of(alloc, path)?;
    if !is_looked_at(alloc, ignored, &parts)? {
        return Ok(Some(&folders[..0]));
    }
    let around = innermost(folders, &parts);
    if stand_for_all(around) {
        return Ok(None);
    }
    Ok(Some(around))
}

/// Whether there are no folders, or one of a package without a name.
fn stand_for_all(folders: &[Folder<'_>]) -> bool
    ensures { IsTrue result ↔ ((folders.now ≡ [])
        ⊎ Contains (map (λ folder. folder.name) folders.now) []) }
{
    folders.is_empty() || folders.iter().any(|folder| folder.name().is_empty())
}
