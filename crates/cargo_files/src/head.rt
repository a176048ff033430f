//! What an expression begins with.

ghost use Rattle.std.specs.Prelude.{◌≡◌, ◌≤◌, ◌<◌, length, bytes_eq, slice_range};
ghost use Rattle.cargo_files.specs.Heads as spec;
ghost use Rattle.cargo_files.specs.Heads.{HeadLiesWithin};

use crate::bytes::{Run, after, run_end};
use crate::spec_fault::{Expected, SpecFault};

/// What an expression begins with, by its places.
#[derive(Clone, Copy, Debug, PartialEq, Eq)]
pub(crate) enum Head {
    /// `all(` or else `any(`, and the place after it.
    Group(bool, usize),
    /// `not(`, and the place after it.
    Not(usize),
    /// `true` or `false`, and the place after it.
    Constant(bool, usize),
    /// A name between two places.
    Name(usize, usize),
    /// A name between two places, and a value between two more, of which the last is its quote's.
    Pair(usize, usize, usize, usize),
    Wrong(SpecFault),
}

fn wrong(at: usize, wanted: Expected) -> Head
    ensures { result ≡ spec.wrong at wanted }
{
    Head::Wrong(SpecFault { at, wanted })
}

pub(crate) fn is_same(word: &[u8], name: &[u8]) -> bool
    ensures { result ≡ bytes_eq word.now name.now }
{
    word == name
}

/// What the expression at the place begins with.
#[tactic(auto, unfolding(crate::specs::Heads::head_at))]
pub(crate) fn head_of(text: &[u8], at: usize) -> Head
    requires { at ≤ length text.now }
    ensures value { result ≡ spec.head_at text.now at }
    ensures within { HeadLiesWithin text.now at result }
{
    let start = run_end(Run::Blanks, text, at);
    let end = run_end(Run::Word, text, start);
    if start == end || text[start].is_ascii_digit() {
        return wrong(start, Expected::Name);
    }
    head_from(text, start, end)
}

/// What begins with the word between two places.
#[tactic(auto, unfolding(crate::specs::Heads::head_from))]
fn head_from(text: &[u8], start: usize, end: usize) -> Head
    requires rises { start < end }
    requires end { end ≤ length text.now }
    ensures value { result ≡ spec.head_from text.now start end }
    ensures within { HeadLiesWithin text.now start result }
{
    let word = &text[start..end];
    if is_same(word, b"all") {
        opened(text, Operator::All, end)
    } else if is_same(word, b"any") {
        opened(text, Operator::Any, end)
    } else if is_same(word, b"not") {
        opened(text, Operator::Not, end)
    } else {
        setting_from(text, start, end)
    }
}

/// What holds expressions in parentheses.
#[derive(Clone, Copy, Debug, PartialEq, Eq)]
pub(crate) enum Operator {
    All,
    Any,
    Not,
}

fn opened(text: &[u8], operator: Operator, end: usize) -> Head
    requires { end ≤ length text.now }
    ensures value { result ≡ spec.opened text.now operator end }
    ensures within { HeadLiesWithin text.now end result }
{
    let Some(next) = after(text, end, b'(') else {
        return wrong(end, Expected::Opening);
    };
    match operator {
        Operator::All => Head::Group(true, next),
        Operator::Any => Head::Group(false, next),
        Operator::Not => Head::Not(next),
    }
}

/// A name, or a name and its value, of which the name stands between two places.
#[tactic(auto, unfolding(crate::specs::Heads::setting_from))]
pub(crate) fn setting_from(text: &[u8], start: usize, end: usize) -> Head
    requires rises { start < end }
    requires end { end ≤ length text.now }
    ensures value { result ≡ spec.setting_from text.now start end }
    ensures within { HeadLiesWithin text.now start result }
{
    if let Some(next) = after(text, end, b'=') {
        return pair_from(text, start, end, next);
    }
    let word = &text[start..end];
    if is_same(word, b"true") {
        Head::Constant(true, end)
    } else if is_same(word, b"false") {
        Head::Constant(false, end)
    } else {
        Head::Name(start, end)
    }
}

/// A name, and the value that stands at the place behind it.
#[tactic(auto, unfolding(crate::specs::Heads::pair_from))]
fn pair_from(text: &[u8], start: usize, end: usize, at: usize) -> Head
    requires name { start < end }
    requires rises { end ≤ at }
    requires end { at ≤ length text.now }
    ensures value { result ≡ spec.pair_from text.now start end at }
    ensures within { HeadLiesWithin text.now start result }
{
    let Some(opens) = after(text, at, b'"') else {
        return wrong(at, Expected::Text);
    };
    let closes = run_end(Run::Quoted, text, opens);
    if closes < text.len() {
        Head::Pair(start, end, opens, closes)
    } else {
        wrong(opens, Expected::Quote)
    }
}
