//! The record of a workspace, made of what `cargo metadata` says of it.
//!
//! Begin with `making.rt`, then `members.rt`. What a dependency is matched by is public
//! (`docs/FROM_CARGO.md`); how it is found is private.
#![tactic(auto)]

mod fault;
mod fitting;
mod lines;
mod making;
mod members;
mod narrowing;
mod packages;

pub use crate::fault::RecordFault;
pub use crate::making::record_of;
pub use crate::members::RequestedMembers;
