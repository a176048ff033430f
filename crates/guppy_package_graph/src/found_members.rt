//! Members named by paths or by names, as places.

ghost use Rattle.std.specs.Prelude.{◌≡◌, ◌↔◌, ℕ, ◌<◌, All, IfErr, IfOk, IsTrue, Some, length, map};
ghost use Rattle.numbered_graph.specs.Sets.{has};
ghost use Rattle.guppy_package_table.specs.Members.{member_at_path, member_called};
ghost use Rattle.guppy_package_graph.specs.Members.{AreNamesKnown, ArePathsKnown, FindsNamePlace, FindsPathPlace, IsAtOneOf, IsCalledOneOf, IsMissingName, IsMissingPath};

use crate::package_graph::PackageGraph;
use guppy_package_parts::Error;
use guppy_package_table::{find_by_name, find_by_path};
use numbered_graph::NodeSet;
use std::alloc::Global;

impl PackageGraph {
    pub(crate) fn place_at_path(&self, path: &str) -> Result<usize, Error>
        ensures { FindsPathPlace self.now path.now result }
    {
        match find_by_path(self.table(), self.members_by_path(), path) {
            Some(place) => Ok(place),
            None => Err(Error::UnknownWorkspacePath),
        }
    }

    pub(crate) fn place_called(&self, name: &str) -> Result<usize, Error>
        ensures { FindsNamePlace self.now name.now result }
    {
        match find_by_name(self.table(), self.members_by_name(), name) {
            Some(place) => Ok(place),
            None => Err(Error::UnknownWorkspaceName),
        }
    }
}

/// The places of the members with these paths.
pub(crate) fn places_at_paths(
    alloc: Global,
    graph: &PackageGraph,
    paths: &[&str],
) -> Result<Vec<usize>, Error>
    ensures found { IfOk result (λ places. map (λ path. member_at_path graph.now path.now) paths.now
        ≡ map Some places.items) }
    ensures within { IfOk result (λ places. All (λ v. v < length graph.now.packages) places.items) }
    ensures refused { IfErr result (IsMissingPath graph.now (map (λ path. path.now) paths.now)) }
{
    let mut places = Vec::new(alloc);
    for path in paths {
        match graph.place_at_path(path) {
            Ok(place) => places.push(place)?,
            Err(error) => return Err(error),
        }
    }
    Ok(places)
}

/// The places of the members with these names.
pub(crate) fn places_called(
    alloc: Global,
    graph: &PackageGraph,
    names: &[&str],
) -> Result<Vec<usize>, Error>
    ensures found { IfOk result (λ places. map (λ name. member_called graph.now name.now) names.now
        ≡ map Some places.items) }
    ensures within { IfOk result (λ places. All (λ v. v < length graph.now.packages) places.items) }
    ensures refused { IfErr result (IsMissingName graph.now (map (λ name. name.now) names.now)) }
{
    let mut places = Vec::new(alloc);
    for name in names {
        match graph.place_called(name) {
            Ok(place) => places.push(place)?,
            Err(error) => return Err(error),
        }
    }
    Ok(places)
}

/// The members with these paths, as a set of places.
pub(crate) fn set_at_paths(
    alloc: Global,
    graph: &PackageGraph,
    paths: &[&str],
) -> Result<NodeSet, Error>
    ensures sized { IfOk result (λ set. length set ≡ length graph.now.packages) }
    ensures named { IfOk result (λ set. (v : ℕ) → IsTrue (has set v)
        ↔ IsAtOneOf graph.now (map (λ path. path.now) paths.now) v) }
    ensures known { IfOk result (λ _. ArePathsKnown graph.now (map (λ path. path.now) paths.now)) }
    ensures refused { IfErr result (IsMissingPath graph.now (map (λ path. path.now) paths.now)) }
{
    let places = places_at_paths(alloc, graph, paths)?;
    let set = NodeSet::of(alloc, graph.package_count(), &places)?;
    Ok(set)
}

/// The members with these names, as a set of places.
pub(crate) fn set_called(
    alloc: Global,
    graph: &PackageGraph,
    names: &[&str],
) -> Result<NodeSet, Error>
    ensures sized { IfOk result (λ set. length set ≡ length graph.now.packages) }
    ensures named { IfOk result (λ set. (v : ℕ) → IsTrue (has set v)
        ↔ IsCalledOneOf graph.now (map (λ name. name.now) names.now) v) }
    ensures known { IfOk result (λ _. AreNamesKnown graph.now (map (λ name. name.now) names.now)) }
    ensures refused { IfErr result (IsMissingName graph.now (map (λ name. name.now) names.now)) }
{
    let places = places_called(alloc, graph, names)?;
    let set = NodeSet::of(alloc, graph.package_count(), &places)?;
    Ok(set)
}
