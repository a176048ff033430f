//! Packages named by ids, as a set of places.

ghost use Rattle.std.specs.Prelude.{◌≡◌, ◌↔◌, ◌<◌, ℕ, All, IfErr, IfOk, IsTrue, Some, length, map, position};
ghost use Rattle.std.specs.Str.{bytes_eq};
ghost use Rattle.numbered_graph.specs.Sets.{has};
ghost use Rattle.guppy_package_table.specs.Tables.{ids_of};
ghost use Rattle.guppy_package_graph.specs.Finding.{AreKnown, HasName, IsMissing, IsNamed};
ghost use Rattle.guppy_package_graph.specs.Workspaces.{IsMemberPlace};

use crate::package_graph::PackageGraph;
use guppy_package_parts::{Error, PackageId};
use guppy_package_table::name_at;
use numbered_graph::NodeSet;
use std::alloc::{AllocError, Global};

/// The places of the packages with these ids.
pub(crate) fn set_of_ids(
    alloc: Global,
    graph: &PackageGraph,
    package_ids: &[&PackageId],
) -> Result<NodeSet, Error>
    ensures sized { IfOk result (λ set. length set ≡ length graph.now.packages) }
    ensures named { IfOk result (λ set. (v : ℕ) → IsTrue (has set v)
        ↔ IsNamed graph.now (map (λ id. id.now) package_ids.now) v) }
    ensures known { IfOk result (λ _. AreKnown graph.now (map (λ id. id.now) package_ids.now)) }
    ensures refused { IfErr result (IsMissing graph.now (map (λ id. id.now) package_ids.now)) }
{
    let places = places_of(alloc, graph, package_ids)?;
    let set = NodeSet::of(alloc, graph.package_count(), &places)?;
    Ok(set)
}

/// The places of the members of the workspace.
pub(crate) fn set_of_members(alloc: Global, graph: &PackageGraph) -> Result<NodeSet, AllocError>
    ensures sized { IfOk result (λ set. length set ≡ length graph.now.packages) }
    ensures members { IfOk result (λ set. (v : ℕ) → IsTrue (has set v)
        ↔ IsMemberPlace graph.now v) }
{
    NodeSet::of(alloc, graph.package_count(), graph.table().members())
}

/// The places of the packages with a name.
pub(crate) fn set_of_name(
    alloc: Global,
    graph: &PackageGraph,
    name: &str,
) -> Result<NodeSet, AllocError>
    ensures sized { IfOk result (λ set. length set ≡ length graph.now.packages) }
    ensures named { IfOk result (λ set. (v : ℕ) → IsTrue (has set v)
        ↔ HasName graph.now name.now v) }
{
    let mut set = NodeSet::none(alloc, graph.package_count())?;
    for place in 0..graph.package_count() {
        if name_at(graph.table(), place) == name {
            set.insert(place);
        }
    }
    Ok(set)
}

fn places_of(
    alloc: Global,
    graph: &PackageGraph,
    package_ids: &[&PackageId],
) -> Result<Vec<usize>, Error>
    ensures found { IfOk result (λ places. map
        (λ id. position (bytes_eq id.now) (ids_of graph.now.packages)) package_ids.now
        ≡ map Some places.items) }
    ensures within { IfOk result (λ places. All (λ v. v < length graph.now.packages) places.items) }
    ensures refused { IfErr result (IsMissing graph.now (map (λ id. id.now) package_ids.now)) }
{
    let mut places = Vec::new(alloc);
    for package_id in package_ids {
        match graph.place_of(*package_id) {
            Ok(place) => places.push(place)?,
            Err(error) => return Err(error),
        }
    }
    Ok(places)
}
