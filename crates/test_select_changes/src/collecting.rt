//! The names of the folders around paths.

ghost use Rattle.std.specs.Prelude.{◌≡◌, ◌++◌, IfOk, OnOk, map};
ghost use Rattle.list_facts.specs.Texts.{texts};
ghost use Rattle.nextest_filter_matchers.specs.Matchers.{tokens_of};
ghost use Rattle.test_select_changes.specs.Folders.{AreInOrder};
ghost use Rattle.test_select_changes.specs.Listings.{ComesTo};

use crate::around::folders_around;
use crate::changed::Changed;
use crate::folder::Folder;
use list_facts::sorted_texts;
use nextest_filter_matchers::GenericGlob;
use std::alloc::{AllocError, Global};

/// What paths come to that are told from the workspace's root, by the folders of packages.
pub fn changed_among(
    alloc: Global,
    folders: &[Folder<'_>],
    ignored: &[GenericGlob],
    paths: &[&str],
) -> Result<Changed, AllocError>
    requires { AreInOrder folders.now }
    ensures { IfOk result (λ changed. ComesTo folders.now
        (map (λ glob. tokens_of glob) ignored.now) (map (λ path. path.now) paths.now) changed) }
{
    let mut names = Vec::new(alloc);
    for path in paths {
        match folders_around(alloc, folders, ignored, path)? {
            Some(around) => add_names(alloc, &mut names, around)?,
            None => return Ok(Changed::All),
        }
    }
    Ok(Changed::Packages(sorted_texts(names)?))
}

fn add_names(
    alloc: Global,
    names: &mut Vec<String>,
    folders: &[Folder<'_>],
) -> Result<(), AllocError>
    ensures { OnOk result (texts names.new.items
        ≡ texts names.old.items ++ map (λ folder. folder.name) folders.now) }
{
    for folder in folders {
        names.push(String::from_str(alloc, folder.name())?)?;
    }
    Ok(())
}
