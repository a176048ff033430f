//! Filters over a package graph: texts compiled, and asked about binaries and tests. It gives out all
//! of the syntax and of what filters are asked.
//!
//! `Filterset::parse` reads the text; bans, and then leaves that match nothing, are gathered from
//! left to right. A `deps` or `rdeps` leaf asks `query_directed` from all matched packages, resolves
//! it, and keeps the context's packages that were reached; a `feature` leaf keeps those with a
//! feature that is said to be on, and becomes packages like these.
//!
//! Begin with `filterset.rt`, then `compiling.rt`; `specs/Meaning.antt` says what each leaf matches.
//! Each public item is a name of nextest's.

#![tactic(auto)]

mod bans;
mod compiling;
mod context_names;
mod filterset;
pub mod laws;
mod matching;
mod parse_context;
mod refusals;

pub use crate::filterset::Filterset;
pub use crate::parse_context::ParseContext;
pub use nextest_filter_evaluation::{
    BinaryQuery, CompiledExpr, EvalContext, FiltersetLeaf, GroupLookup, KnownGroups, NoGroups,
    PackageId, RustBinaryId, RustTestBinaryKind, TestCaseName, TestQuery,
};
pub use nextest_filter_syntax::{
    AndOperator, BuildPlatform, DifferenceOperator, FILTERSET_REFERENCE_MD, FiltersetKind,
    GenericGlob, NameMatcher, NotOperator, OrOperator, ParsedExpr, ParsedLeaf, SourceSpan,
    parse_with_faults,
};

/// Why filter texts are refused.
pub mod errors {
    pub use crate::refusals::{FiltersetError, FiltersetParseErrors};
    pub use nextest_filter_syntax::{
        BannedPredicateReason, GlobConstructError, GlobError, ParseExprError, ParseSingleError,
    };
}
