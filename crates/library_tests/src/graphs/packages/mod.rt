//! Visitors of package graphs that keep a state, sets of two graphs, and counted resolves.

mod cycles;
mod direct;
mod graphs;
mod kept;
mod lent;
mod resolves;
mod sets;
pub(crate) mod visitors;
