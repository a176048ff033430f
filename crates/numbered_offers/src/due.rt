//! What is offered at once when an edge is met: one offer, or both halves of a weak edge.

ghost use Rattle.std.specs.Prelude.{◌≡◌, ◌&&◌, ◌==◌};
ghost use Rattle.numbered_offers.specs.Counts.{flag_for};
ghost use Rattle.numbered_offers.specs.Edges.{has_offer};
ghost use Rattle.numbered_offers.specs.Dues.{asks};
ghost use Rattle.numbered_offers.specs.declared.offer.Offer.{Offer};

use crate::edge::{Edge, EdgeSort};
use crate::offer::{Offer, OfferKind};

/// What is offered at once.
#[derive(Clone, Copy, Debug, PartialEq, Eq)]
pub enum Due {
    /// One offer.
    One(Offer),
    /// Both halves of the edge with this number, the required one first.
    Halves(usize),
}

// What an edge offers when its near end is reached: `whole` its unsplit offer or required half,
// `optional` its optional half, where these wait for nothing more.
pub(crate) fn due_of_edge(edge: Edge, number: usize, whole: bool, optional: bool) -> Option<Due>
    ensures due { (o : Offer) → asks result o
        ≡ ((number == o.edge) && (has_offer edge.sort o.kind && flag_for o.kind whole optional)) }
{
    match edge.sort {
        EdgeSort::Conditional if whole => Some(Due::One(Offer {
            edge: number,
            kind: OfferKind::Unsplit,
        })),
        EdgeSort::Unconditional | EdgeSort::Conditional => None,
        EdgeSort::Weak {
            required,
            optional: half,
            ..
        } => match (required && whole, half && optional) {
            (false, false) => None,
            (true, false) => Some(Due::One(Offer {
                edge: number,
                kind: OfferKind::Required,
            })),
            (false, true) => Some(Due::One(Offer {
                edge: number,
                kind: OfferKind::Optional,
            })),
            (true, true) => Some(Due::Halves(number)),
        },
    }
}
