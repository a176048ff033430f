//! Laws: of a record that keeps the rules, its feature graph and its rules say one thing. They go by
//! what the rows demand, and by a visitor of feature graphs that follows a link where a line behind it
//! counts on one platform.
//!
//! There are three steps, each with a law: the edges with their lines close the same sets of nodes
//! as what the rows demand (`proofs/EdgeFacts.antt`); this closes the same sets of features as the
//! rules that hold under each choice (`proofs/RulesToDemands.antt`, `DemandsToRules.antt`: a demand
//! and a rule of each case); and what is on is the least of these sets that has what is chosen
//! (`proofs/ChosenFacts.antt`). Their premises on a record (names apart, optional lines named) are
//! among the rules that a record keeps.
//!
//! Begin with `specs/DemandSeams.antt` and `specs/EdgeSeams.antt`, then `line_verdict.rt`, which alone
//! runs. Proofs may be changed freely; what is on is found on the ground of these laws.

#![tactic(auto)]

pub mod demand_laws;
pub mod edge_laws;
pub mod laws;
mod line_verdict;
mod starting;
mod table_platform;

pub use crate::line_verdict::LineVerdict;
pub use crate::table_platform::TablePlatform;
