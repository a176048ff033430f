//! Walks over graphs whose edges are offered to somebody who accepts or refuses them, some only where a
//! third node is reached too.
//!
//! An `OfferWalk` keeps for each conditional edge or half a count of its premises that are not
//! reached (`state.rt`): one, or two for an optional half forward, which waits for its dependency's
//! node too. A node that is reached comes into the work list of a `Walk` once; there each link that
//! waits for it lowers its counts, and what comes to zero is offered, a required half before its
//! optional one. A free edge is crossed at once. The counts are said by which links were met
//! (`specs/Counts.antt`, `proofs/CountFacts.antt`), and so are the offers that were made
//! (`specs/Keeping.antt`). `proofs/StepFacts.antt` has the step, `proofs/EndFacts.antt` the begin
//! and the end.
//!
//! Begin with `specs/Runs.antt`, then `offer_walk.rt`. What is due next (`due.rt`, `state.rt`) is
//! private; the feature graph and its laws stand on the clauses of `OfferWalk`.
#![tactic(auto)]

mod due;
mod edge;
pub mod laws;
mod offer;
mod offer_graph;
mod offer_walk;
mod state;
mod uncounted;

pub use crate::due::Due;
pub use crate::edge::{Edge, EdgeSort, are_edges_within};
pub use crate::offer::{Offer, OfferKind};
pub use crate::offer_graph::OfferGraph;
pub use crate::offer_walk::OfferWalk;
pub use crate::uncounted::take_uncounted;
