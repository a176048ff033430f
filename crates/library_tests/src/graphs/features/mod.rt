//! Visitors and filters of feature graphs that keep a state, boxed ones, and closures.

mod filters;
mod graphs;
mod kept;
mod lent;
mod lists;
mod resolves;
mod sets;
pub(crate) mod visitors;
