//! Compiled filters, what they say of tests and of binaries, and what filters are asked about: groups
//! of tests, and names. Compiled filters are made ready for the tests of one binary: what the binary
//! decides is worked out once, and what is left asks a test's name alone, without memory.
//!
//! An evaluator finds the value of the default filter first, only if it is named, then goes over the
//! tree once; a leaf of packages looks its id up in a set. `ReadyExpr::new` makes a filter ready for
//! a binary: leaves that the binary decides become known and what they make needless goes, names are
//! lent, a pattern is the place of its searcher, and a group's matcher a flag for each group. A
//! search changes the searchers' caches, so its clause `same` says that their patterns stay.
//! `LentFilters` are the filters of a question; `ReadyFilters` are these for one binary: the default
//! filter is asked first, then the test's group is found, if some text names a group at all, and the
//! texts are asked till one holds. What is ready answers as the filters do (`AnswerAlike`).
//!
//! Begin with `specs/Meaning.antt`, then `compiled_expr.rt`; `specs/Ready.antt` and `ready_expr.rt` for
//! what is made ready. Formulas, reducing and searchers are private in how they work.

#![tactic(auto)]

mod binary_values;
mod compiled_expr;
mod eval_context;
mod filterset_leaf;
mod groups;
mod joining;
mod kleene;
mod known_by_part;
mod lent_filters;
mod lent_lookup;
mod name_tests;
mod no_groups;
mod ready_context;
mod ready_expr;
mod ready_filters;
mod reducing;
mod searchers;
mod test_values;

pub use crate::compiled_expr::CompiledExpr;
pub use crate::eval_context::EvalContext;
pub use crate::filterset_leaf::FiltersetLeaf;
pub use crate::groups::{GroupLookup, KnownGroups};
pub use crate::lent_filters::LentFilters;
pub use crate::name_tests::suits;
pub use crate::no_groups::NoGroups;
pub use crate::ready_context::ReadyContext;
pub use crate::ready_expr::ReadyExpr;
pub use crate::ready_filters::ReadyFilters;
pub use crate::searchers::searchers_of;
pub use nextest_binaries::{
    BinaryQuery, PackageId, RustBinaryId, RustTestBinaryKind, TestCaseName, TestQuery,
};
