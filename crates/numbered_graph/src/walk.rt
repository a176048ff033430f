//! The walk over a graph that asks of each link whether it is accepted, without the one who answers.

ghost use Rattle.std.specs.Prelude.{◌≡◌, ℕ, ◌+◌, ◌<◌, ◌≤◌, ◌++◌, ◌∷◌, [], ◌↔◌, length, true, All, IsTrue, IfOk, IfSome, IfNone, slice_set, vec_len, vec_capacity, if◌then◌else◌};
ghost use Rattle.std.specs.Option.{is_some};
ghost use Rattle.numbered_graph.specs.Sets.{has};
ghost use Rattle.numbered_graph.specs.Walks.{opened_of, IsShowing, IsIncluded, IsDue, AreListed};

use crate::direction::Direction;
use crate::flags::is_set;
use crate::graph::Graph;
use crate::looks::Looks;
use crate::node_set::NodeSet;
use std::alloc::{AllocError, Global};
use std::marker::Model;
use std::sync::ledger::Ledger;

// What was shown stays in memory for contracts alone, which tell a run by it.
/// A walk from some nodes in a direction. `take` gives a link that leaves an included node, `answer`
/// says whether it is accepted, and then its far end is included too. After `new` nothing takes
/// memory, so that a caller may ask somebody between the two.
#[derive(Drop)]
pub struct Walk<'g> {
    graph: &'g Graph,
    direction: Direction,
    starts: &'g [usize],
    reached: Vec<bool>,
    order: Vec<usize>,
    cursors: Vec<usize>,
    opened: usize,
    shown: Vec<(usize, bool)>,
    waiting: Option<usize>,
}

impl<'g> Model for Walk<'g> {
    ghost use Rattle.numbered_graph.specs.Walks.{WalkValue};

    ghost Value = { WalkValue };

    ghost use Rattle.numbered_graph.specs.Walking.{seen, Stands};

    ghost view = { seen };

    ghost invariant = { Stands };
}

// Puts the item at the end of a list that has room for it.
fn push_within<T: Drop>(items: &mut Vec<T>, item: T)
    requires { vec_len items.old < vec_capacity items.old }
    ensures items { items.new.items ≡ items.old.items ++ item ∷ [] }
    ensures capacity { vec_capacity items.old ≤ vec_capacity items.new }
{
    let _ = items.push(item);
}

// Marks the node as reached, and lists it if it is new.
fn include(reached: &mut Vec<bool>, order: &mut Vec<usize>, node: usize)
    requires node { node < length reached.old.items }
    requires listed { AreListed (length reached.old.items) reached.old.items order.old.items }
    requires room { length reached.old.items ≤ vec_capacity order.old }
    ensures listed { AreListed (length reached.old.items) reached.new.items order.new.items }
    ensures reached { reached.new.items ≡ slice_set reached.old.items node true }
    ensures order { order.new.items ≡ (if has reached.old.items node then order.old.items
        else order.old.items ++ node ∷ []) }
    ensures capacity { vec_capacity order.old ≤ vec_capacity order.new }
{
    if !reached[node] {
        reached[node] = true;
        push_within(order, node);
    }
}

impl<'g> Walk<'g> {
    /// A walk that has shown nothing. Takes time and memory in proportion to nodes and links.
    /// `are_below` tests what is asked of the starts.
    pub fn new(
        alloc: Global,
        graph: &'g Graph,
        starts: &'g [usize],
        direction: Direction,
    ) -> Result<Walk<'g>, AllocError>
        requires { All (λ v. v < graph.now.nodes) starts.now }
        ensures started { IfOk result (λ w. w ≡ record {
          graph = graph.now;
          direction = direction;
          starts = starts.now;
          shown = [];
          waiting = None;
          looked = 0;
        }) }
    {
        let nodes = graph.node_count();
        let mut reached = vec![in alloc; false; nodes]?;
        let mut order = Vec::with_capacity(alloc, nodes)?;
        for node in starts {
            include(&mut reached, &mut order, *node);
        }
        let cursors = graph.first_links(alloc, direction)?;
        let shown = Vec::with_capacity(alloc, graph.links().len())?;
        Ok(Walk {
            graph,
            direction,
            starts,
            reached,
            order,
            cursors,
            opened: 0,
            shown,
            waiting: None,
        })
    }

    /// The next link to be shown, in no order that is promised; none once each was shown.
    pub fn take<L: Ledger>(&mut self, looks: &mut Looks<L>) -> Option<usize>
        requires { self.old.waiting ≡ None }
        ensures due { IfSome result (IsDue self.old.direction self.old.graph.links self.old.starts
            self.old.shown) }
        ensures room { IfSome result (λ _. length self.old.shown < length self.old.graph.links) }
        ensures all { IfNone result (IsShowing self.old.direction self.old.graph.links
            self.old.starts self.old.shown) }
        ensures kept { self.new ≡ record self.old { waiting = result; looked = self.new.looked } }
        ensures looks { looks.new + self.old.looked ≡ looks.old + self.new.looked }
        ensures bound { self.new.looked ≤ self.new.graph.nodes + length self.new.graph.links }
    {
        let number = self.take_counting_nodes(looks)?;
        looks.tick();
        Some(number)
    }

    /// The same for a caller that counts the links by itself: a look is a node that is taken from the
    /// work list.
    pub fn take_counting_nodes<L: Ledger>(&mut self, looks: &mut Looks<L>) -> Option<usize>
        requires { self.old.waiting ≡ None }
        ensures due { IfSome result (IsDue self.old.direction self.old.graph.links self.old.starts
            self.old.shown) }
        ensures room { IfSome result (λ _. length self.old.shown < length self.old.graph.links) }
        ensures all { IfNone result (IsShowing self.old.direction self.old.graph.links
            self.old.starts self.old.shown) }
        ensures kept { self.new ≡ record self.old { waiting = result; looked = self.new.looked } }
        ensures looks { looks.new + opened_of self.old ≡ looks.old + opened_of self.new }
        ensures nodes { opened_of self.new ≤ self.new.graph.nodes }
        ensures link { self.new.looked + opened_of self.old
            ≡ self.old.looked + opened_of self.new + (if is_some result then 1 else 0) }
        ensures bound { self.new.looked ≤ self.new.graph.nodes + length self.new.graph.links }
    {
        while self.opened < self.order.len() {
            let node = self.order[self.opened];
            let number = self.cursors[node];
            if number < self.graph.links().len() {
                self.cursors[node] = self.graph.next_of(self.direction, number);
                self.waiting = Some(number);
                return Some(number);
            }
            looks.tick();
            self.opened += 1;
        }
        None
    }

    /// Whether the link that was taken is accepted.
    pub fn answer(&mut self, number: usize, accepted: bool)
        requires { self.old.waiting ≡ Some number }
        ensures answered { self.new ≡ record self.old {
          waiting = None;
          shown = self.old.shown ++ (number, accepted) ∷ [];
        } }
    {
        let far = self.graph.far(self.direction, number);
        push_within(&mut self.shown, (number, accepted));
        self.waiting = None;
        if accepted {
            include(&mut self.reached, &mut self.order, far);
        }
    }

    /// Whether accepted links lead to the node from the starts, at any moment: one look at its flag. A
    /// number past the last node is never included.
    pub fn includes(&self, node: usize) -> bool
        ensures included { IsTrue result ↔ IsIncluded self.now.direction self.now.graph.links
            self.now.starts self.now.shown node }
    {
        is_set(&self.reached, node)
    }

    /// The nodes that accepted links lead to from the starts, at any moment.
    pub fn into_included(self) -> NodeSet
        ensures sized { length result ≡ self.entry.graph.nodes }
        ensures included { (v : ℕ) → IsTrue (has result v)
            ↔ IsIncluded self.entry.direction self.entry.graph.links self.entry.starts
            self.entry.shown v }
    {
        NodeSet::from_flags(self.reached)
    }
}
