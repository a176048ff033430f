//! The folders of the packages of a set.

ghost use Rattle.std.specs.Prelude.{◌≡◌, ◌↔◌, ◌⊎◌, Contains, IfOk, IsTrue, List, OnOk, Some};
ghost use Rattle.workspace_record.specs.Records.{Text};
ghost use Rattle.numbered_graph.specs.Sets.{has};
ghost use Rattle.guppy_package_parts.specs.SourceViews.{source_view};
ghost use Rattle.guppy_package_graph.specs.Views.{graph_of, place_of};
ghost use Rattle.test_select_changes.specs.Folders.{AreFolders, AreInOrder, IsFolderAt, IsFolderOf, NamedFolder};
ghost use Rattle.test_select_changes.specs.PartViews.{found_parts, parts_cmp};

use crate::folder::Folder;
use crate::path_parts::{parts_below, parts_of};
use guppy_package_graph::{DependencyDirection, PackageMetadata, PackageSet, PackageSource};
use std::alloc::{AllocError, Global};
use std::cmp::Ordering;

/// The folders of the packages, ascending by their parts.
pub fn folders_of<'g>(
    alloc: Global,
    packages: &PackageSet<'g>,
) -> Result<Vec<Folder<'g>>, AllocError>
    ensures folders { IfOk result (λ found. AreFolders packages.now.graph
        (λ v. IsTrue (has packages.now.included v)) found.items) }
    ensures ordered { IfOk result (λ found. AreInOrder found.items) }
{
    let mut folders = unordered_folders(alloc, packages)?;
    folders.sort_unstable_by(
        |a, b| -> Ordering
            ensures { result ≡ parts_cmp a.now.parts b.now.parts }
        { a.compare(b) },
    );
    Ok(folders)
}

fn unordered_folders<'g>(
    alloc: Global,
    packages: &PackageSet<'g>,
) -> Result<Vec<Folder<'g>>, AllocError>
    ensures { IfOk result (λ found. AreFolders packages.now.graph
        (λ v. IsTrue (has packages.now.included v)) found.items) }
{
    let root = packages.graph().workspace().root();
    let mut folders = Vec::new(alloc);
    for package in packages.packages(DependencyDirection::Forward) {
        add_folder(alloc, &mut folders, root, package)?;
    }
    Ok(folders)
}

/// One folder more, where the package has one below the root of the workspace.
fn add_folder<'g>(
    alloc: Global,
    folders: &mut Vec<Folder<'g>>,
    root: &'g str,
    metadata: PackageMetadata<'g>,
) -> Result<(), AllocError>
    requires { root.now ≡ (graph_of metadata).workspace.root }
    ensures { OnOk result ((folder : NamedFolder) → Contains folders.new.items folder
        ↔ (Contains folders.old.items folder
        ⊎ IsFolderAt (graph_of metadata.entry) (place_of metadata.entry) folder)) }
{
    if let Some(parts) = folder_of(alloc, root, metadata.source())? {
        folders.push(Folder::of(parts, metadata.name()))?;
    }
    Ok(())
}

/// The parts of the folder in which a package from there has its files.
fn folder_of<'g>(
    alloc: Global,
    root: &'g str,
    source: PackageSource<'g>,
) -> Result<Option<Vec<&'g str>>, AllocError>
    ensures { IfOk result (λ found. (parts : List Text)
        → IsFolderOf root.entry.now (source_view source.entry) parts
        ↔ (found_parts found ≡ Some parts)) }
{
    match source {
        PackageSource::Workspace(path) => Ok(Some(parts_of(alloc, path)?)),
        PackageSource::Path(path) => parts_below(alloc, root, path),
        PackageSource::External(_) => Ok(None),
    }
}
