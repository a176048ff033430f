//! The walk over the links of a graph of offers, the counts of premises, and what was asked.

ghost use Rattle.std.specs.Prelude.{◌≡◌, suc, ◌+◌, ◌<◌, ◌≤◌, ◌++◌, ◌||◌, [], All, length, Some, IfSome, IfNone, IfOk, vec_len, vec_capacity};
ghost use Rattle.numbered_graph.specs.Walks.{IsShowing, opened_of};
ghost use Rattle.numbered_offers.specs.declared.offer.Offer.{Offer};
ghost use Rattle.numbered_offers.specs.Counts.{AreOpen, count_at, lowered, whole_after, optional_after, is_due_at};
ghost use Rattle.numbered_offers.specs.Dues.{asks, asked_of, accepted_of};
ghost use Rattle.numbered_offers.specs.Graphs.{all_links};
ghost use Rattle.numbered_offers.specs.Keeping.{half_at, is_free_link, run_of};
ghost use Rattle.numbered_offers.specs.States.{Rests, Meets, WaitsFor, IsSameWalk};

use crate::due::{Due, due_of_edge};
use crate::offer::{Offer, OfferKind};
use crate::offer_graph::OfferGraph;
use numbered_graph::{Direction, Looks, Walk};
use std::alloc::{AllocError, Global};
use std::sync::ledger::Ledger;

/// What was offered at once, with the answers.
#[derive(Clone, Copy)]
pub struct Asked {
    pub due: Due,
    pub first: bool,
    pub second: bool,
}

// An edge has two counts, also where it has no such offer: a count for each offer alone would need a table
// from edges to counts.
/// A walk over all links, the link that was taken last, how many premises are not reached, of each
/// edge those of its unsplit offer or required half and those of its optional half, and what was asked.
#[derive(Drop)]
pub struct State<'g> {
    pub graph: &'g OfferGraph,
    pub direction: Direction,
    pub walk: Walk<'g>,
    pub link: usize,
    pub whole_open: Vec<u8>,
    pub optional_open: Vec<u8>,
    pub asked: Vec<Asked>,
}

// Before the first link.
pub(crate) fn started<'g>(
    alloc: Global,
    graph: &'g OfferGraph,
    starts: &'g [usize],
    direction: Direction,
) -> Result<State<'g>, AllocError>
    requires { All (λ v. v < graph.now.nodes) starts.now }
    ensures rests { IfOk result Rests }
    ensures graph { IfOk result (λ s. s.graph.now ≡ graph.now) }
    ensures direction { IfOk result (λ s. s.direction ≡ direction) }
    ensures walk { IfOk result (λ s. (s.walk.starts ≡ starts.now) × (s.walk.shown ≡ [])
        × (opened_of s.walk ≡ 0)) }
    ensures asked { IfOk result (λ s. s.asked.items ≡ []) }
{
    let edges = graph.edges().len();
    let whole_open = vec![in alloc; 1; edges]?;
    // Forward an optional half waits for its dependency's node too.
    let premises = match direction {
        Direction::Forward => 2,
        Direction::Reverse => 1,
    };
    let optional_open = vec![in alloc; premises; edges]?;
    let asked = Vec::with_capacity(alloc, graph.graph().links().len())?;
    let walk = Walk::new(alloc, graph.graph(), starts, direction)?;
    Ok(State {
        graph,
        direction,
        walk,
        link: 0,
        whole_open,
        optional_open,
        asked,
    })
}

// The edge whose optional half waits at a link.
fn half_of(graph: &OfferGraph, number: usize) -> usize
    requires behind { length graph.now.edges ≤ number }
    requires number { number < length (all_links graph.now.edges) }
    ensures value { result ≡ half_at graph.now.edges number }
    ensures edge { result < length graph.now.edges }
{
    let edges = graph.edges().len();
    graph.halves()[number - edges]
}

// Lowers the count of an edge by one.
fn lower(counts: &mut Vec<u8>, number: usize)
    requires place { number < length counts.old.items }
    requires open { 0 < count_at counts.old.items number }
    ensures { counts.new.items ≡ lowered number counts.old.items }
{
    counts[number] -= 1;
}

// Lowers the counts that wait at a link.
fn meet(
    graph: &OfferGraph,
    direction: Direction,
    whole: &mut Vec<u8>,
    optional: &mut Vec<u8>,
    number: usize,
)
    requires number { number < length (all_links graph.now.edges) }
    requires whole_sized { length whole.old.items ≡ length graph.now.edges }
    requires optional_sized { length optional.old.items ≡ length graph.now.edges }
    requires open { AreOpen direction graph.now.edges number whole.old.items optional.old.items }
    ensures whole { whole.new.items ≡ whole_after graph.now.edges number whole.old.items }
    ensures optional { optional.new.items ≡ optional_after direction graph.now.edges number
        optional.old.items }
{
    if number < graph.edges().len() {
        lower(whole, number);
        lower(optional, number);
    } else if let Direction::Forward = direction {
        let half = half_of(graph, number);
        lower(optional, half);
    }
}

// What is offered at a link whose counts were lowered.
fn due_at(
    graph: &OfferGraph,
    direction: Direction,
    whole: &[u8],
    optional: &[u8],
    number: usize,
) -> Option<Due>
    requires number { number < length (all_links graph.now.edges) }
    requires whole_sized { length whole.now ≡ length graph.now.edges }
    requires optional_sized { length optional.now ≡ length graph.now.edges }
    ensures due { (o : Offer) → asks result o
        ≡ is_due_at direction graph.now.edges whole.now optional.now number o }
{
    let edges = graph.edges();
    if number < edges.len() {
        due_of_edge(
            edges[number],
            number,
            whole[number] == 0,
            optional[number] == 0,
        )
    } else {
        let half = half_of(graph, number);
        match (direction, optional[half] == 0) {
            (Direction::Forward, true) => Some(Due::One(Offer {
                edge: half,
                kind: OfferKind::Optional,
            })),
            (Direction::Forward, false) | (Direction::Reverse, _) => None,
        }
    }
}

// Lowers the counts that wait at the link that was taken, and says what is offered there.
fn meet_link(state: &mut State<'_>, number: usize) -> Option<Due>
    requires meets { Meets state.old number }
    ensures waits { WaitsFor state.new result }
    ensures run { run_of state.new.asked.items ≡ run_of state.old.asked.items }
    ensures walk { state.new.walk ≡ state.old.walk }
    ensures graph { state.new.graph ≡ state.old.graph }
    ensures direction { state.new.direction ≡ state.old.direction }
{
    state.link = number;
    meet(
        state.graph,
        state.direction,
        &mut state.whole_open,
        &mut state.optional_open,
        number,
    );
    due_at(
        state.graph,
        state.direction,
        &state.whole_open,
        &state.optional_open,
        number,
    )
}

// Whether the walk follows the link: that of an edge that is crossed always, or of an accepted offer.
// The second answer is for a second half.
fn is_accepted(
    graph: &OfferGraph,
    number: usize,
    due: Option<Due>,
    first: bool,
    second: bool,
) -> bool
    ensures { result ≡ (is_free_link graph.now.edges number || accepted_of due first second) }
{
    let edges = graph.edges();
    let taken = match due {
        None => false,
        Some(Due::One(_)) => first,
        Some(Due::Halves(_)) => first || second,
    };
    (number < edges.len() && edges[number].is_free()) || taken
}

// Puts what was asked at the end of a list that has room for it.
fn note(asked: &mut Vec<Asked>, due: Option<Due>, first: bool, second: bool)
    requires { vec_len asked.old < vec_capacity asked.old }
    ensures run { run_of asked.new.items ≡ run_of asked.old.items ++ asked_of due first second }
    ensures count { length asked.new.items ≤ suc (length asked.old.items) }
    ensures capacity { vec_capacity asked.old ≤ vec_capacity asked.new }
{
    if let Some(due) = due {
        let _ = asked.push(Asked { due, first, second });
    }
}

// Takes the answers to what is offered at the link that was taken.
pub(crate) fn settle(state: &mut State<'_>, due: Option<Due>, first: bool, second: bool)
    requires waits { WaitsFor state.old due }
    ensures rests { Rests state.new }
    ensures run { run_of state.new.asked.items
        ≡ run_of state.old.asked.items ++ asked_of due first second }
    ensures walk { IsSameWalk state.old state.new }
    ensures shown { length state.new.walk.shown ≡ suc (length state.old.walk.shown) }
    ensures opened { opened_of state.new.walk ≡ opened_of state.old.walk }
{
    let number = state.link;
    let accepted = is_accepted(state.graph, number, due, first, second);
    note(&mut state.asked, due, first, second);
    state.walk.answer(number, accepted);
}

// Goes on to the next link at which something is offered.
pub(crate) fn next_due<L: Ledger>(state: &mut State<'_>, looks: &mut Looks<L>) -> Option<Due>
    requires rests { Rests state.old }
    ensures waits { IfSome result (λ due. WaitsFor state.new (Some due)) }
    ensures rests { IfNone result (Rests state.new) }
    ensures all { IfNone result (IsShowing state.new.direction (all_links state.new.graph.now.edges)
        state.new.walk.starts state.new.walk.shown) }
    ensures run { run_of state.new.asked.items ≡ run_of state.old.asked.items }
    ensures walk { IsSameWalk state.old state.new }
    ensures shown { length state.old.walk.shown ≤ length state.new.walk.shown }
    ensures looks { looks.new + opened_of state.old.walk ≡ looks.old + opened_of state.new.walk }
    ensures bound { opened_of state.new.walk ≤ state.new.graph.now.nodes }
{
    while let Some(number) = state.walk.take_counting_nodes(looks) {
        let due = meet_link(state, number);
        if due.is_some() {
            return due;
        }
        settle(state, None, false, false);
    }
    None
}
