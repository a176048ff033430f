//! What several crates say of lists of texts: words for contracts, lemmas, and a few functions that
//! write, copy and sort texts. It decides nothing of the subject.
//!
//! A function that adds to a vector says `new ≡ old ++ ..`. Its loop's invariant is that sentence as
//! far as the loop has come, and usually needs no other proof (`both_more`, `mapped_more`,
//! `flat_more`). A step with two calls in a loop goes into a function of its own.
//!
//! Begin with `specs/Texts.antt` and `specs/Writers.antt`. All crates stand on the clauses here, so a
//! change of one is felt everywhere.
#![tactic(auto)]

mod entries;
mod sorting;
mod writing;

pub use crate::entries::write_entries;
pub use crate::sorting::{copy_texts, sorted_pairs, sorted_texts};
pub use crate::writing::{write_bytes, write_pieces};
