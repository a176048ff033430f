//! Each request for memory of a call is refused in turn, as far as the bytes that are left to it can tell
//! requests apart, until none is: what is refused answers want of memory, and the last run what is wanted.

mod features;
mod files;
pub(crate) mod filters;
mod memory_budget;
mod packages;
mod programs;
mod questions;
mod selections;
mod turns;
