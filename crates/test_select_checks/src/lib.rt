//! Whether a record keeps the rules and its filters are accepted, and what is found in it while that is
//! tested: its graph, the packages over which its filters are matched, the groups of tests that it
//! names.
//!
//! Begin with `checking.rt` and `checked_record.rt`; `specs/Checks.antt` says in which order a record
//! is refused. What a checked record keeps beside its record is private.

#![tactic(auto)]

mod checked_record;
mod checking;
mod compiled_filters;
mod fault_lines;
mod filter_parts;
mod filter_texts;
mod graph;
mod group_names;
mod group_table;
mod record_error;
mod select_error;

pub use crate::checked_record::CheckedRecord;
pub use crate::checking::{check_record, declared_graph};
pub use crate::compiled_filters::record_filters;
pub use crate::filter_parts::{GroupFilter, RecordFilters};
pub use crate::filter_texts::compiled_text;
pub use crate::graph::{filter_context, graph_of, shared_graph_of};
pub use crate::group_names::known_groups;
pub use crate::group_table::GroupTable;
pub use crate::record_error::RecordError;
pub use crate::select_error::SelectError;
pub use nextest_filter_tokens::{ParseSingleError, SourceSpan};
pub use test_select_rules::RecordRule;
