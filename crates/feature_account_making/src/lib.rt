//! The account of what is on: a list of rules that anyone can check, each of them the lowest that may
//! stand at its place. The explanation of one feature, taken out of an account. And rules with what
//! each comes from, and all of that as lines that a person reads.
//!
//! The rules that wait for a feature are found by the feature. Each rule is looked at once at the
//! beginning, in ascending order, and again when a premise of it was concluded: the numbers to be
//! looked at (`RuleQueue`) are all from the next one on, and those before it that were woken since;
//! the least is taken each time. The search's invariant (`Keeps`, in `proofs/SearchFacts.antt`) says
//! that each open rule is among them, so the least that is open is the lowest open rule of all. What
//! it concludes is what is on.
//!
//! An explanation's invariant is `Selects` (`proofs/Selecting.antt`): what was taken may stand after
//! any list that concludes all that it needs of the entries in front. Rules are listed once more,
//! part by part (`feature_account_rules::parts`), each with what it comes from. A line is printed by
//! a chain of `Display`s (`printed.rt`), each with its bytes, and a whole answer is one text that is
//! written at once.
//!
//! Begin with `specs/Lowest.antt`, then `making.rt`, `explaining.rt` and `sourcing.rt`. Which rule is
//! looked at next (`rule_queue.rt`) is private; the lines that are written are public.

#![tactic(auto)]

mod account_writing;
mod concluding;
mod explaining;
mod explanation_writing;
mod feature_lines;
pub mod laws;
mod lowest_account;
mod making;
mod printed;
mod rule_lines;
mod rule_queue;
mod rule_source;
mod sourced_rule;
mod sourcing;
mod waiting;
mod write_account_error;

pub use crate::account_writing::{push_numbers, write_account};
pub use crate::concluding::{account, explanation, on_features};
pub use crate::explaining::explanation_of;
pub use crate::explanation_writing::write_explanation;
pub use crate::feature_lines::write_features;
pub use crate::lowest_account::Account;
pub use crate::making::{account_of, account_of_lent};
pub use crate::rule_lines::{write_entries, write_rules};
pub use crate::rule_source::RuleSource;
pub use crate::sourced_rule::SourcedRule;
pub use crate::sourcing::sourced_rules;
pub use crate::write_account_error::WriteAccountError;
