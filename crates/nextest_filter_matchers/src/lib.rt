//! What the matchers of filter texts say of names: globs with their tokens, and the four sorts of
//! matchers. Beside these stands where a part of a text lies.
//!
//! Modules: `glob_reading` (text to pattern), `glob_sequence` (tokens without braces, by two
//! places), `glob_walk` (one walk over a name, by flags for the tokens), `glob_search` (each way to
//! part a name), `generic_glob`, `name_matcher`, `escaped` (printing), `laws`. A glob in code is
//! lists of tokens, with a pattern for what stands in braces; in definitions it is a tree
//! (`glob_of`).
//!
//! Begin with `specs/Globs.antt` (which names a glob matches) and `specs/GlobGrammar.antt` (how its
//! text reads), then `name_matcher.rt`. How a glob is matched (`glob_walk.rt` and those beside it) is
//! private.

#![tactic(auto)]

mod escaped;
mod generic_glob;
mod glob_error;
mod glob_pattern;
mod glob_reading;
mod glob_search;
mod glob_sequence;
mod glob_walk;
pub mod laws;
mod name_matcher;
mod source_span;

pub use crate::generic_glob::GenericGlob;
pub use crate::glob_error::{GlobConstructError, GlobError};
pub use crate::name_matcher::NameMatcher;
pub use crate::source_span::SourceSpan;
