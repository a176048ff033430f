//! The components of a graph, by ranks that rise along links. One walk against the links: the open
//! nodes are a path that is cut into knots, the nodes of a knot lead to each other and to all earlier
//! knots, and a knot with no link left is a component.

ghost use Rattle.std.specs.Prelude.{◌≡◌, ℕ, ◌<◌, ◌≤◌, List, ◌++◌, ◌∷◌, [], length, slice_index, take, All, AllPairs, IfOk, IfSome, IfNone, OnOk};
ghost use Rattle.numbered_graph.specs.Sets.{has};
ghost use Rattle.numbered_graph.specs.Links.{near_at};
ghost use Rattle.numbered_graph.specs.Ranks.{AreRanks};
ghost use Rattle.numbered_graph.specs.Searches.{lists_of, opened, work_left, IsInLastKnot, KeepsPlaced, JoinsAt, Meets, RanksFrom, Searches};
ghost use Rattle.numbered_graph.specs.declared.direction.Direction.TheVariants.{Reverse};

use crate::direction::Direction;
use crate::graph::Graph;
use std::alloc::{AllocError, Global};

/// What the walk knows: for each node the next link into it that is still to be followed, one more
/// than its place on the path, and its rank (0: none yet); the path, the places at which its knots
/// start, and the nodes on it that may have links left; how many knots were closed, which is the last
/// rank.
#[derive(Drop)]
pub struct Search {
    cursors: Vec<usize>,
    places: Vec<usize>,
    ranks: Vec<usize>,
    path: Vec<usize>,
    starts: Vec<usize>,
    todo: Vec<usize>,
    closed: usize,
}

/// For each node a number that rises along the links whose flag is set and is equal only within a
/// component. Takes time and memory in proportion to nodes and links, whatever their depth.
pub fn component_ranks(
    alloc: Global,
    graph: &Graph,
    passes: &[bool],
) -> Result<Vec<usize>, AllocError>
    requires { length passes.now ≡ length graph.now.links }
    ensures ranks { IfOk result (λ r. AreRanks graph.now.links (has passes.now) graph.now.nodes
        r.items) }
{
    let nodes = graph.node_count();
    let mut search = Search {
        cursors: graph.first_links(alloc, Direction::Reverse)?,
        places: vec![in alloc; 0; nodes]?,
        ranks: vec![in alloc; 0; nodes]?,
        path: Vec::new(alloc),
        starts: Vec::new(alloc),
        todo: Vec::new(alloc),
        closed: 0,
    };
    for root in 0..nodes {
        explore(graph, passes, &mut search, root)?;
    }
    Ok(search.ranks)
}

// Gives a rank to the node and to all that lead to it.
fn explore(
    graph: &Graph,
    passes: &[bool],
    search: &mut Search,
    root: usize,
) -> Result<(), AllocError>
    requires root { root < graph.now.nodes }
    requires passes { length passes.now ≡ length graph.now.links }
    requires searches { Searches graph.now.links (has passes.now) graph.now.nodes
        (lists_of search.old) }
    requires idle { search.old.starts.items ≡ [] }
    ensures searches { OnOk result (Searches graph.now.links (has passes.now) graph.now.nodes
        (lists_of search.new)) }
    ensures idle { OnOk result (search.new.starts.items ≡ []) }
    ensures placed { OnOk result (0 < slice_index search.new.places.items root) }
    ensures kept { OnOk result (KeepsPlaced (lists_of search.old) (lists_of search.new)) }
{
    if search.places[root] > 0 {
        return Ok(());
    }
    open(search, root)?;
    while search.starts.len() > 0 {
        step(graph, passes, search)?;
    }
    Ok(())
}

// Follows a link into a node of the last knot, or closes that knot.
fn step(graph: &Graph, passes: &[bool], search: &mut Search) -> Result<(), AllocError>
    requires passes { length passes.now ≡ length graph.now.links }
    requires searches { Searches graph.now.links (has passes.now) graph.now.nodes
        (lists_of search.old) }
    requires knot { 0 < length search.old.starts.items }
    ensures searches { OnOk result (Searches graph.now.links (has passes.now) graph.now.nodes
        (lists_of search.new)) }
    ensures less { OnOk result (work_left graph.now.links (lists_of search.new)
        < work_left graph.now.links (lists_of search.old)) }
    ensures kept { OnOk result (KeepsPlaced (lists_of search.old) (lists_of search.new)) }
{
    let start = search.starts[search.starts.len() - 1];
    match last_past(search, start) {
        Some(node) => {
            follow(graph, passes, search, node)?;
            Ok(())
        }
        None => {
            search.starts.truncate(search.starts.len() - 1);
            search.closed += 1;
            close(&mut search.path, &mut search.ranks, start, search.closed);
            Ok(())
        }
    }
}

// The last of the nodes that may have links left, if it stands on the path at `start` or later.
fn last_past(search: &Search, start: usize) -> Option<usize>
    requires within { All (λ v. v < length search.now.places.items) search.now.todo.items }
    requires rising { AllPairs (λ u v. slice_index search.now.places.items u
        ≤ slice_index search.now.places.items v) search.now.todo.items }
    ensures some { IfSome result (λ v. (rest : List ℕ) × (search.now.todo.items ≡ rest ++ v ∷ [])
        × (start < slice_index search.now.places.items v)) }
    ensures none { IfNone result (All (λ v. slice_index search.now.places.items v ≤ start)
        search.now.todo.items) }
{
    let count = search.todo.len();
    if count == 0 {
        return None;
    }
    let node = search.todo[count - 1];
    if search.places[node] > start {
        Some(node)
    } else {
        None
    }
}

// Follows the next link into a node of the last knot, or finds that none is left.
fn follow(
    graph: &Graph,
    passes: &[bool],
    search: &mut Search,
    node: usize,
) -> Result<(), AllocError>
    requires passes { length passes.now ≡ length graph.now.links }
    requires searches { Searches graph.now.links (has passes.now) graph.now.nodes
        (lists_of search.old) }
    requires last { (rest : List ℕ) × (search.old.todo.items ≡ rest ++ node ∷ []) }
    requires knot { IsInLastKnot (lists_of search.old) node }
    ensures searches { OnOk result (Searches graph.now.links (has passes.now) graph.now.nodes
        (lists_of search.new)) }
    ensures less { OnOk result (work_left graph.now.links (lists_of search.new)
        < work_left graph.now.links (lists_of search.old)) }
    ensures kept { OnOk result (KeepsPlaced (lists_of search.old) (lists_of search.new)) }
{
    let number = search.cursors[node];
    if number >= graph.links().len() {
        search.todo.truncate(search.todo.len() - 1);
        return Ok(());
    }
    meet(graph, passes, search, number)?;
    search.cursors[node] = graph.next_of(Direction::Reverse, number);
    Ok(())
}

// Looks at the node from which a link comes into the last knot: a new one is opened, and from an open
// one on all knots become one.
fn meet(
    graph: &Graph,
    passes: &[bool],
    search: &mut Search,
    number: usize,
) -> Result<(), AllocError>
    requires number { number < length graph.now.links }
    requires passes { length passes.now ≡ length graph.now.links }
    requires searches { Searches graph.now.links (has passes.now) graph.now.nodes
        (lists_of search.old) }
    requires knot { IsInLastKnot (lists_of search.old) (near_at Reverse graph.now.links number) }
    ensures searches { OnOk result (Searches graph.now.links (has passes.now) graph.now.nodes
        (lists_of search.new)) }
    ensures met { OnOk result (Meets graph.now.links (has passes.now) number (lists_of search.old)
        (lists_of search.new)) }
    ensures kept { OnOk result (KeepsPlaced (lists_of search.old) (lists_of search.new)) }
{
    let far = graph.far(Direction::Reverse, number);
    if !passes[number] {
        return Ok(());
    }
    if search.ranks[far] > 0 {
        return Ok(());
    }
    if search.places[far] == 0 {
        open(search, far)?;
        return Ok(());
    }
    let place = search.places[far] - 1;
    join(&mut search.starts, place);
    Ok(())
}

// Puts a new node at the end of the path, as a knot of its own.
fn open(search: &mut Search, node: usize) -> Result<(), AllocError>
    requires { node < length search.old.places.items }
    ensures { OnOk result (lists_of search.new ≡ opened (lists_of search.old) node) }
{
    search.starts.push(search.path.len())?;
    search.path.push(node)?;
    search.todo.push(node)?;
    search.places[node] = search.path.len();
    Ok(())
}

// Makes one knot of those from the one that holds the place on.
fn join(starts: &mut Vec<usize>, place: usize)
    requires { AllPairs (λ a b. a < b) starts.old.items }
    ensures { JoinsAt place starts.old.items starts.new.items }
{
    while starts.len() > 0 && starts[starts.len() - 1] > place {
        starts.truncate(starts.len() - 1);
    }
}

// Gives the nodes of the path from a place on their rank, and cuts them off.
fn close(path: &mut Vec<usize>, ranks: &mut Vec<usize>, start: usize, rank: usize)
    requires start { start ≤ length path.old.items }
    requires within { All (λ v. v < length ranks.old.items) path.old.items }
    ensures path { path.new.items ≡ take start path.old.items }
    ensures ranks { RanksFrom start (length path.old.items) rank path.old.items ranks.old.items
        ranks.new.items }
{
    for place in start..path.len() {
        ranks[path[place]] = rank;
    }
    path.truncate(start);
}
