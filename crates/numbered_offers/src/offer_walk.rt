//! The walk over a graph of offers, without the one who answers.

ghost use Rattle.std.specs.Prelude.{◌≡◌, ◌↔◌, ℕ, suc, ◌+◌, ◌<◌, ◌≤◌, ◌++◌, [], true, false, All, IsTrue, IfOk, IfSome, IfNone, Some, None, length, count_by};
ghost use Rattle.std.specs.Option.{is_none};
ghost use Rattle.numbered_graph.specs.Sets.{has};
ghost use Rattle.numbered_offers.specs.declared.offer.Offer.{Offer};
ghost use Rattle.numbered_offers.specs.Dues.{asks, asked_of};
ghost use Rattle.numbered_offers.specs.Edges.{is_weak};
ghost use Rattle.numbered_offers.specs.Runs.{IsDue, IsLegalRun, IsReachedBy};

use crate::due::Due;
use crate::offer_graph::OfferGraph;
use crate::state::{State, next_due, settle, started};
use numbered_graph::{Direction, Looks, NodeSet};
use std::alloc::{AllocError, Global};
use std::marker::Model;
use std::sync::ledger::Ledger;

// `take` gives both halves at once, where the dependency was reached before the edge was met: both are due at
// one moment, and nothing has to be held back. A look is counted where a node leaves the work list, once each
// link that waits for it was met.
/// A walk from some nodes in a direction. `take` gives what is offered next, `answer` says what of it
/// is accepted. After `new` nothing takes memory, so that a caller may ask somebody between the two.
#[derive(Drop)]
pub struct OfferWalk<'g> {
    state: State<'g>,
    waiting: Option<Due>,
    ended: bool,
}

impl<'g> Model for OfferWalk<'g> {
    ghost use Rattle.numbered_offers.specs.OfferWalks.{OfferWalkValue, seen, IsSound};

    ghost Value = { OfferWalkValue };

    ghost view = { seen };

    ghost invariant = { IsSound };
}

impl<'g> OfferWalk<'g> {
    /// A walk that has made no offer. Takes time and memory in proportion to nodes and edges.
    /// `numbered_graph::are_below` tests what is asked of the starts.
    pub fn new(
        alloc: Global,
        graph: &'g OfferGraph,
        starts: &'g [usize],
        direction: Direction,
    ) -> Result<OfferWalk<'g>, AllocError>
        requires { All (λ v. v < graph.now.nodes) starts.now }
        ensures started { IfOk result (λ w. w ≡ record {
          graph = graph.now;
          direction = direction;
          starts = starts.now;
          run = [];
          waiting = None;
          ended = false;
          passed = 0;
          looked = 0;
        }) }
    {
        let state = started(alloc, graph, starts, direction)?;
        Ok(OfferWalk {
            state,
            waiting: None,
            ended: false,
        })
    }

    /// What is offered next, in no order that is promised but that a required half comes before its
    /// optional one; none once every offer that is due was made.
    pub fn take<L: Ledger>(&mut self, looks: &mut Looks<L>) -> Option<Due>
        requires { self.old.waiting ≡ None }
        ensures due { IfSome result (λ due. (o : Offer) → asks (Some due) o ≡ true
            → IsDue self.old.direction self.old.graph.edges self.old.starts self.old.run o) }
        ensures all { IfNone result (IsLegalRun self.old.direction self.old.graph.edges
            self.old.starts self.old.run) }
        ensures kept { self.new ≡ record self.old {
          waiting = result;
          ended = is_none result;
          passed = self.new.passed;
          looked = self.new.looked;
        } }
        ensures rises { self.old.passed ≤ self.new.passed }
        ensures room { IfSome result (λ _. self.new.passed
            < length self.new.graph.edges + count_by is_weak self.new.graph.edges) }
        ensures looks { looks.new + self.old.looked ≡ looks.old + self.new.looked }
        ensures bound { self.new.looked ≤ self.new.graph.nodes }
    {
        let due = next_due(&mut self.state, looks);
        self.waiting = due;
        self.ended = due.is_none();
        due
    }

    /// Whether what was offered is accepted: one offer by the first answer, and of two halves the
    /// required one by the first and the optional one by the second.
    pub fn answer(&mut self, due: Due, first: bool, second: bool)
        requires { self.old.waiting ≡ Some due }
        ensures answered { self.new ≡ record self.old {
          waiting = None;
          ended = false;
          run = self.old.run ++ asked_of (Some due) first second;
          passed = suc self.old.passed;
        } }
    {
        settle(&mut self.state, Some(due), first, second);
        self.waiting = None;
        self.ended = false;
    }

    /// Once no offer was left, the nodes that edges which are crossed lead to from the starts.
    pub fn into_included(self) -> NodeSet
        ensures sized { length result ≡ self.entry.graph.nodes }
        ensures included { self.entry.ended ≡ true → (v : ℕ) → IsTrue (has result v)
            ↔ IsReachedBy self.entry.direction self.entry.graph.edges self.entry.starts
            self.entry.run v }
    {
        self.state.walk.into_included()
    }
}
