//! Filters as trees: their grammar, the leaves, how they are read, with their faults, and how they are
//! printed.
//!
//! A filter is read in one pass over the bytes that goes on after a fault. Each function takes the
//! place where its part begins and the list of faults, and answers the part (`None`: spoiled) and
//! the place after it. A level of the grammar is a number (operands, intersections and differences,
//! unions), and `tree_from` reads all three by one loop; `operand_from` and `tree_from` call each
//! other, at most 256 deep. `proofs/GrammarFacts.antt` takes a reading apart by what stands at its
//! beginning (`operand_at`) and behind a tree (`behind_at`), `proofs/StepFacts.antt` has one lemma
//! for each step. That no text reads as two trees makes `read` and `only` into one answer at the top
//! (`parse_with_faults`). What is built along the left side is built from the outside in, and then
//! turned over without memory (`turned_over`).
//!
//! Begin with `specs/Grammar.antt` and `specs/LeafGrammar.antt`, then `parsing.rt`. The trees are
//! nextest's; the reader's steps are private. No walk along the left side of a tree takes a frame of
//! the stack for an operand.

#![tactic(auto)]

mod between;
pub mod laws;
mod matchers;
mod parsed_expr;
mod parsed_leaf;
mod parsing;
mod parts;
mod places;
mod printing;
mod reading;
mod reference;
mod runtime_leaves;
mod sets;
mod signs;

pub use crate::parsed_expr::ParsedExpr;
pub use crate::parsed_leaf::ParsedLeaf;
pub use crate::parsing::{ParseExprError, parse_with_faults};
pub use crate::places::expect_byte;
pub use crate::reference::FILTERSET_REFERENCE_MD;
pub use crate::runtime_leaves::needs_deps;
pub use crate::sets::{named_set_from, nullary_set_from, platform_set_from};
pub use crate::signs::{Sign, Style};
pub use nextest_filter_matchers::{
    GenericGlob, GlobConstructError, GlobError, NameMatcher, SourceSpan,
};
pub use nextest_filter_tokens::{
    AndOperator, BannedPredicateReason, BuildPlatform, DifferenceOperator, FiltersetKind,
    NotOperator, OrOperator, ParseSingleError,
};
