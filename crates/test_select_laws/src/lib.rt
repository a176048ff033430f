//! Laws of selections: by links that are on and by declared links, over records in two orders; and
//! which questions a selection answers.
//!
//! A path over lines that are on is one over declared links; and a path between packages of one
//! record is one between the packages of the same ids in another order of it
//! (`proofs/OrderPathFacts.antt`).
//!
//! Begin with `laws.rt`. Nothing here runs.
#![tactic(auto)]

pub mod laws;
