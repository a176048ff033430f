//! The filters of a question, compiled, and what they say of tests and of binaries; the selection: what
//! is to be asked, what a lister answers, what is chosen and reported, in parts and by binary too; and
//! whether and why a test is chosen, or a binary asked.
//!
//! The plan (`plan.rt`) asks nobody; its clause `Plans` says of each part what the question says
//! (`proofs/PlanFacts.antt`; `proofs/PassFacts.antt`: compiled filters and filters as they were read
//! say the same). Carrying it out (`asking.rt`) asks for each planned binary by `ask_each`, or takes
//! its listing over by `take_each`, and keeps the names of which some filter is true; its clause
//! `CarriesOut` speaks of the plan alone. `proofs/SelectingFacts.antt` joins the two to `Answers`,
//! which speaks of no table of the code. A reason (`explaining.rt`) takes the same way up to the
//! filters, finds the binary and what it lacks (`finding.rt`), and asks one filter after another
//! (`holding.rt`) for one test, or asks what is known of the binary.
//!
//! Begin with `specs/Selecting.antt` and `specs/Questions.antt`, then `selecting.rt`. How a plan is
//! made and carried out (`plan.rt`, `asking.rt`) is private; `select`, `why` and their clauses are what
//! the program and its callers stand on.

#![tactic(auto)]

mod ascending_pairs;
mod asked;
mod asked_binaries;
mod asking;
mod byte_names;
mod evaluation;
mod explaining;
mod filtering;
mod finding;
mod grouping;
mod holding;
pub mod laws;
mod lending;
mod named_features;
mod partition;
mod plan;
mod question_filters;
mod reason;
mod report;
mod scope;
mod selecting;
mod selection;

pub use crate::asked::{binaries_to_ask, binaries_to_ask_shared};
pub use crate::asked_binaries::AskedBinaries;
pub use crate::evaluation::{default_may_pass, may_pass, some_may_pass};
pub use crate::explaining::{why, why_shared};
pub use crate::filtering::compile_question_filters;
pub use crate::grouping::by_binary;
pub use crate::holding::{default_holds, first_that_holds};
pub use crate::lending::lent_filters;
pub use crate::partition::Partition;
pub use crate::question_filters::QuestionFilters;
pub use crate::reason::{BinaryReason, Reason, TestReason};
pub use crate::report::write_report;
pub use crate::scope::LinkScope;
pub use crate::selecting::{select, select_listed, select_plain};
pub use crate::selection::Selection;
