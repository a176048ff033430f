//! Operators between operands.

ghost use Rattle.std.specs.Prelude.{◌≡◌, ◌≤◌, length};
ghost use Rattle.nextest_filter_tokens.specs.Bytes as spec;
ghost use Rattle.nextest_filter_tokens.specs.Operators.{FoundEndsWithin, and_at, or_at};

use crate::bytes::{has_word, is_word_end};
use crate::operator_signs::{AndOperator, OrOperator};

/// An operator between two operands.
#[derive(Clone, Copy, Debug, PartialEq, Eq)]
pub enum Operator {
    Or(OrOperator),
    And(AndOperator),
    Minus,
}

/// What stands in an operator's place, with the place after it.
#[derive(Clone, Copy, Debug, PartialEq, Eq)]
pub enum Found {
    Nothing,
    Joins(Operator, usize),
    /// What is written for an operator wrongly.
    Wrong(usize),
}

/// Whether the word stands at the place, and no longer one.
pub(crate) fn has_whole_word(text: &str, at: usize, word: &[u8]) -> bool
    ensures { result ≡ spec.has_whole_word text.now at word.now }
{
    has_word(text, at, word) && is_word_end(text, at + word.len())
}

/// What stands in the place of an operator of unions.
#[tactic(auto, unfolding(crate::specs::Operators::or_at))]
fn or_found(text: &str, at: usize) -> Found
    ensures { result ≡ or_at text.now at }
{
    if has_word(text, at, b"||") {
        return Found::Wrong(at + 2);
    }
    if has_whole_word(text, at, b"OR") {
        return Found::Wrong(at + 2);
    }
    if has_whole_word(text, at, b"or") {
        return Found::Joins(Operator::Or(OrOperator::LiteralOr), at + 2);
    }
    if has_word(text, at, b"|") {
        return Found::Joins(Operator::Or(OrOperator::Pipe), at + 1);
    }
    if has_word(text, at, b"+") {
        return Found::Joins(Operator::Or(OrOperator::Plus), at + 1);
    }
    Found::Nothing
}

/// What stands in the place of an operator of intersections or differences.
#[tactic(auto, unfolding(crate::specs::Operators::and_at))]
fn and_found(text: &str, at: usize) -> Found
    ensures { result ≡ and_at text.now at }
{
    if has_word(text, at, b"&&") {
        return Found::Wrong(at + 2);
    }
    if has_whole_word(text, at, b"AND") {
        return Found::Wrong(at + 3);
    }
    if has_whole_word(text, at, b"and") {
        return Found::Joins(Operator::And(AndOperator::LiteralAnd), at + 3);
    }
    if has_word(text, at, b"&") {
        return Found::Joins(Operator::And(AndOperator::Ampersand), at + 1);
    }
    if has_word(text, at, b"-") {
        return Found::Joins(Operator::Minus, at + 1);
    }
    Found::Nothing
}

/// The operator of unions at a place.
pub fn or_operator(text: &str, at: usize) -> Found
    ensures value { result ≡ or_at text.now at }
    ensures end { FoundEndsWithin text.now at result }
{
    or_found(text, at)
}

/// The operator of intersections or differences at a place.
pub fn and_operator(text: &str, at: usize) -> Found
    ensures value { result ≡ and_at text.now at }
    ensures end { FoundEndsWithin text.now at result }
{
    and_found(text, at)
}
