//! The tokens of filter texts, by their places in bytes: blanks, words, operators, escapes, and the
//! texts and patterns of matchers. And the faults of filter texts with their spans, and the list of
//! them.
//!
//! All readers say the same, in the words of `specs/ReadingSteps.antt`: `goes_on` (the place after
//! is no earlier one and within the text, no fault was taken back), `spoils` (a part is answered and
//! no pattern was refused, or there is a fault; `keeps` where there is always an answer), `read`
//! (clean now, then the grammar reads the answer between the two places; `unbuilt`: some part also
//! where a refused pattern spoiled it), `only` (clean before, and the grammar reads a part from
//! here, then up to the same place, and clean now). A list without faults of the syntax is clean
//! (`IsClean`).
//!
//! Begin with `specs/Texts.antt` and `specs/Operators.antt`, then `parse_error.rt` for the faults. The
//! variants and fields of faults are nextest's; how a place is looked at is private.

#![tactic(auto)]

mod blanks;
mod bytes;
mod escapes;
mod fault_copies;
mod fault_list;
mod filterset_kind;
mod heads;
pub mod laws;
mod operator_signs;
mod operators;
mod parse_error;
mod patterns;
mod texts;

pub use crate::blanks::skip_blanks;
pub use crate::bytes::{has_byte, has_word, is_word_end};
pub use crate::escapes::{Escape, escape_after};
pub use crate::fault_list::FaultList;
pub use crate::filterset_kind::{BannedPredicateReason, FiltersetKind};
pub use crate::heads::{Head, Nullary, Predicate, WrongOperator, head_of};
pub use crate::operator_signs::{AndOperator, DifferenceOperator, NotOperator, OrOperator};
pub use crate::operators::{Found, Operator, and_operator, or_operator};
pub use crate::parse_error::ParseSingleError;
pub use crate::patterns::pattern_from;
pub use crate::texts::text_from;
pub use nextest_binaries::BuildPlatform;
pub use nextest_filter_matchers::{
    GenericGlob, GlobConstructError, GlobError, NameMatcher, SourceSpan,
};
