//! Asking a callback about each package of a set.

ghost use Rattle.std.specs.Prelude.{◌≡◌, ◌↔◌, ℕ, ◌<◌, Bool, List, true, Contains, IfOk, IsTrue, OnErr, length};
ghost use Rattle.numbered_graph.specs.Sets.{has};
ghost use Rattle.guppy_package_graph.specs.Filters.{AreAsked, AsksPackage};

use crate::package_graph::PackageGraph;
use crate::package_metadata::PackageMetadata;
use crate::package_set::PackageSet;
use guppy_package_parts::DependencyDirection;
use numbered_graph::NodeSet;
use std::alloc::{AllocError, Global};

/// The places of the packages for which the callback gives the first answer, and of those for which it
/// gives the second. All memory is taken before it is asked.
pub(crate) fn choose<'g, A: PartialEq + Copy, F: FnMut(PackageMetadata<'g>) -> A>(
    alloc: Global,
    set: &PackageSet<'g>,
    direction: DependencyDirection,
    callback: &mut F,
    first: A,
    second: A,
) -> Result<(NodeSet, NodeSet), AllocError>
    requires callable { F.IsAlwaysCallable callback.old }
    requires told { (a b : A) → IsTrue (A.eq a b) ↔ (a ≡ b) }
    ensures ok { IfOk result
        (λ parts. (asked : List (ℕ × A))
        × AreAsked F.FnMut set.now direction callback.old asked callback.new
        × ((v : ℕ) → IsTrue (has parts.0 v) ↔ Contains asked (v, first))
        × ((v : ℕ) → IsTrue (has parts.1 v) ↔ Contains asked (v, second))) }
    ensures sized { IfOk result (λ parts. (length parts.0 ≡ length set.now.graph.packages)
        × (length parts.1 ≡ length set.now.graph.packages)) }
    ensures err { OnErr result (callback.new ≡ callback.old) }
{
    let graph = set.graph();
    let mut firsts = NodeSet::none(alloc, graph.package_count())?;
    let mut seconds = NodeSet::none(alloc, graph.package_count())?;
    let mut places = set.listed(direction);
    while let Some(place) = places.next() {
        let answer = ask_about(callback, graph, place);
        firsts.insert_if(place, answer == first);
        seconds.insert_if(place, answer == second);
    }
    Ok((firsts, seconds))
}

/// The places of the packages that the callback accepts. All memory is taken before it is asked.
pub(crate) fn choose_accepted<'g, F: FnMut(PackageMetadata<'g>) -> bool>(
    alloc: Global,
    set: &PackageSet<'g>,
    direction: DependencyDirection,
    callback: &mut F,
) -> Result<NodeSet, AllocError>
    requires { F.IsAlwaysCallable callback.old }
    ensures ok { IfOk result
        (λ kept. (asked : List (ℕ × Bool))
        × AreAsked F.FnMut set.now direction callback.old asked callback.new
        × ((v : ℕ) → IsTrue (has kept v) ↔ Contains asked (v, true))) }
    ensures sized { IfOk result (λ kept. length kept ≡ length set.now.graph.packages) }
    ensures err { OnErr result (callback.new ≡ callback.old) }
{
    let graph = set.graph();
    let mut kept = NodeSet::none(alloc, graph.package_count())?;
    let mut places = set.listed(direction);
    while let Some(place) = places.next() {
        let answer = ask_about(callback, graph, place);
        kept.insert_if(place, answer);
    }
    Ok(kept)
}

fn ask_about<'g, A, F: FnMut(PackageMetadata<'g>) -> A>(
    callback: &mut F,
    graph: &'g PackageGraph,
    place: usize,
) -> A
    requires callable { F.IsAlwaysCallable callback.old }
    requires within { place < length graph.now.packages }
    ensures asks { AsksPackage F.FnMut graph.entry.now callback.old place result callback.new }
    ensures callable { F.IsAlwaysCallable callback.new }
{
    callback(graph.metadata_at(place))
}
