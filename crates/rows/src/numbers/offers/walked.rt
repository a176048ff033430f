//! A walk whose offers are answered in some manner.

ghost use Rattle.std.specs.Prelude.{◌≡◌, ◌<◌, All};

use crate::numbers::offers::manner::{Manner, answer_to};
use numbered_graph::{Direction, Looks, NodeSet};
use numbered_offers::{Due, Offer, OfferGraph, OfferKind, OfferWalk};
use row_program::Answers;
use std::alloc::{AllocError, Global};
use std::marker::Brand;
use std::sync::ledger::{Blank, Ledger};

/// Walks from the starts. Tells the offers in order, each with a sign for its answer, and answers what was
/// included.
pub(crate) fn walk_in(
    alloc: Global,
    graph: &OfferGraph,
    starts: &[usize],
    direction: Direction,
    manner: Manner<'_>,
    answers: &mut Answers,
) -> Result<NodeSet, AllocError>
    requires starts { All (λ v. v < graph.now.nodes) starts.now }
{
    walk_with_blank::<Brand>(
        alloc,
        graph,
        starts,
        direction,
        manner,
        answers,
        Blank::new(1),
    )
}

fn walk_with_blank<L: Ledger>(
    alloc: Global,
    graph: &OfferGraph,
    starts: &[usize],
    direction: Direction,
    manner: Manner<'_>,
    answers: &mut Answers,
    blank: Blank,
) -> Result<NodeSet, AllocError>
    requires starts { All (λ v. v < graph.now.nodes) starts.now }
    requires name { blank.name ≡ L.name }
    requires parts { blank.parts ≡ L.parts }
    requires some { 0 < blank.parts }
{
    let mut looks = Looks::<L>::new(blank);
    let mut walk = OfferWalk::new(alloc, graph, starts, direction)?;
    let mut before = 0;
    while let Some(due) = walk.take(&mut looks) {
        let (first, second) = answers_to(manner, due, &mut before, answers);
        walk.answer(due, first, second);
    }
    Ok(walk.into_included())
}

fn answers_to(
    manner: Manner<'_>,
    due: Due,
    before: &mut usize,
    answers: &mut Answers,
) -> (bool, bool) {
    match due {
        Due::One(offer) => (ask(manner, offer, before, answers), false),
        Due::Halves(edge) => {
            let kind = OfferKind::Required;
            let required = ask(manner, Offer { edge, kind }, before, answers);
            let kind = OfferKind::Optional;
            let optional = ask(manner, Offer { edge, kind }, before, answers);
            (required, optional)
        }
    }
}

/// Answers an offer after so many others, and tells it.
fn ask(manner: Manner<'_>, offer: Offer, before: &mut usize, answers: &mut Answers) -> bool {
    let answer = answer_to(manner, offer, *before);
    *before = before.saturating_add(1);
    let kind = match offer.kind {
        OfferKind::Unsplit => "",
        OfferKind::Required => "r",
        OfferKind::Optional => "o",
    };
    answers.part(" ", &offer.edge);
    answers.part(kind, if answer { &"+" } else { &"-" });
    answer
}
