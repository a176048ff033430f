//! What is printed of a filter reads as that filter.
//!
//! `WordFacts` (what a word that stands in a text says of its bytes), `HexFacts` (escapes by a
//! code), `TextBack`, `PatternBack`, `MatcherBack`, `LeafBack`, `TreeBack` stand each on those
//! before it. They speak of a place of a text at which the printed bytes stand (`has_word`), never
//! of a text cut in parts.
//!
//! Begin with `laws.rt`; all of it is one law and its proof. Nothing here runs.

#![tactic(auto)]

pub mod laws;
