//! The longest folder around a path, found by halving.

ghost use Rattle.std.specs.Prelude.{◌≡◌, ◌↔◌, Bool, Contains};
ghost use Rattle.std.specs.Ordering.{is_le, is_lt};
ghost use Rattle.test_select_changes.specs.Folders.{AreInOrder, IsInnermost, NamedFolder};
ghost use Rattle.test_select_changes.specs.PartViews.{lent_parts, parts_cmp};

use crate::folder::Folder;

/// Of folders in order the longest ones that begin a path of these parts.
pub fn innermost<'f, 'g>(folders: &'f [Folder<'g>], parts: &[&str]) -> &'f [Folder<'g>]
    requires { AreInOrder folders.now }
    ensures { (folder : NamedFolder) → Contains result.now folder
        ↔ IsInnermost folders.entry.now (lent_parts parts.now) folder }
{
    let mut length = parts.len();
    let mut found = folders_at(folders, parts);
    while found.is_empty() && length > 0 {
        length -= 1;
        found = folders_at(folders, &parts[..length]);
    }
    found
}

/// Of folders in order those with these parts.
fn folders_at<'f, 'g>(folders: &'f [Folder<'g>], parts: &[&str]) -> &'f [Folder<'g>]
    requires { AreInOrder folders.now }
    ensures { (folder : NamedFolder) → Contains result.now folder
        ↔ (Contains folders.entry.now folder × (folder.parts ≡ lent_parts parts.now)) }
{
    let first = folders.partition_point(
        |folder| -> bool
            ensures { result ≡ is_lt (parts_cmp folder.now.parts (lent_parts parts.entry.now)) }
        { folder.compare_to(parts).is_lt() },
    );
    let end = folders.partition_point(
        |folder| -> bool
            ensures { result ≡ is_le (parts_cmp folder.now.parts (lent_parts parts.entry.now)) }
        { folder.compare_to(parts).is_le() },
    );
    &folders[first..end]
}
