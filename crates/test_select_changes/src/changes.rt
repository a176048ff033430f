//! What changed paths come to.

ghost use Rattle.std.specs.Prelude.{IsTrue, map};
ghost use Rattle.numbered_graph.specs.Sets.{has};
ghost use Rattle.nextest_filter_matchers.specs.Matchers.{tokens_of};
ghost use Rattle.test_select_changes.specs.Changes.{Changes};

use crate::changed::{Changed, ChangedError};
use crate::collecting::changed_among;
use crate::folders::folders_of;
use crate::within::first_outside;
use guppy_package_graph::PackageSet;
use nextest_filter_matchers::GenericGlob;
use std::alloc::Global;

/// The names of the packages to which changed paths belong, or that any package may have changed.
///
/// Paths are told from the workspace's root, with `/` between their parts; empty parts and `.` do
/// not count. The first path that is absolute or steps up is answered by its place, before any is
/// looked at. A path without parts is passed over, and so is one that a glob takes, as its parts
/// with `/` between them.
///
/// A path belongs to those packages of the set that have the longest folder in which it lies. The
/// graph has the folders from its record: of a member its path there, of another package without a
/// source what its own path has below the workspace's root. Where a path belongs to no package, or
/// to one without a name, the answer is `All`; else the names are ascending, each once.
///
/// Takes time in proportion to packages and paths, up to sorting: the beginnings of each path are
/// looked up among the folders by halving, and each glob is tried.
pub fn changed_packages(
    alloc: Global,
    packages: &PackageSet<'_>,
    ignored: &[GenericGlob],
    paths: &[&str],
) -> Result<Changed, ChangedError>
    ensures changes { Changes packages.now.graph (λ v. IsTrue (has packages.now.included v))
        (map (λ glob. tokens_of glob) ignored.now) (map (λ path. path.now) paths.now) result }
{
    if let Some(place) = first_outside(paths) {
        return Err(ChangedError::Path(place));
    }
    let folders = folders_of(alloc, packages)?;
    let changed = changed_among(alloc, &folders, ignored, paths)?;
    Ok(changed)
}
