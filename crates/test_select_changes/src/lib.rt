//! Which packages changed paths belong to, by the folders in which packages have their files; and the
//! filter for the tests of all that depends on them, with its laws.
//!
//! Begin with `specs/Changes.antt`, then `changes.rt`. How folders are read from a graph and found
//! around a path is private.

#![tactic(auto)]

mod around;
mod changed;
mod changed_filters;
mod changes;
mod collecting;
mod folder;
mod folders;
mod innermost;
pub mod laws;
mod looking;
mod path_parts;
mod within;

pub use crate::changed::{Changed, ChangedError};
pub use crate::changed_filters::changed_filter;
pub use crate::changes::changed_packages;
