//! Graphs over numbers, of packages and of features: long graphs, calls that take memory and what they
//! print, visitors and filters that keep a state, boxed ones and closures, sets of two graphs, and counted
//! resolves.

pub(crate) mod features;
mod numbers;
pub(crate) mod packages;
mod parts;
