//! The words that begin a set.

ghost use Rattle.std.specs.Prelude.{◌≡◌};
ghost use Rattle.nextest_filter_tokens.specs.Heads.{HeadEndsWithin, head_at, misplaced_at, plain_set_at, sign_at};

use crate::bytes::has_word;
use crate::operator_signs::NotOperator;
use crate::operators::has_whole_word;

/// What a matcher is of.
#[derive(Clone, Copy, Debug, PartialEq, Eq)]
pub enum Predicate {
    Package,
    Deps,
    Rdeps,
    Kind,
    Binary,
    BinaryId,
    Test,
    Group,
    Feature,
}

/// A set that takes nothing.
#[derive(Clone, Copy, Debug, PartialEq, Eq)]
pub enum Nullary {
    Default,
    All,
    None,
}

/// An operator that stands in an operand's place.
#[derive(Clone, Copy, Debug, PartialEq, Eq)]
pub enum WrongOperator {
    LowerAnd,
    LowerOr,
    UpperAnd,
    UpperOr,
    DoubleAmpersand,
    DoublePipe,
    UpperNot,
}

/// What an operand begins with, and the place after it.
#[derive(Clone, Copy, Debug, PartialEq, Eq)]
pub enum Head {
    Names(Predicate, usize),
    Platform(usize),
    Says(Nullary, usize),
    Negates(NotOperator, usize),
    Opens(usize),
    Misplaces(WrongOperator, usize),
    Unknown,
}

/// What the operand at the place begins with.
pub fn head_of(text: &str, at: usize) -> Head
    ensures value { result ≡ head_at text.now at }
    ensures end { HeadEndsWithin text.now at result }
{
    named_set_of(text, at)
}

/// A set with a matcher, or else what stands there.
#[tactic(auto, unfolding(crate::specs::Heads::head_at))]
fn named_set_of(text: &str, at: usize) -> Head
    ensures { result ≡ head_at text.now at }
{
    if has_word(text, at, b"package") {
        return Head::Names(Predicate::Package, at + 7);
    }
    if has_word(text, at, b"deps") {
        return Head::Names(Predicate::Deps, at + 4);
    }
    if has_word(text, at, b"rdeps") {
        return Head::Names(Predicate::Rdeps, at + 5);
    }
    if has_word(text, at, b"kind") {
        return Head::Names(Predicate::Kind, at + 4);
    }
    if has_word(text, at, b"binary_id") {
        return Head::Names(Predicate::BinaryId, at + 9);
    }
    if has_word(text, at, b"binary") {
        return Head::Names(Predicate::Binary, at + 6);
    }
    if has_word(text, at, b"test") {
        return Head::Names(Predicate::Test, at + 4);
    }
    if has_word(text, at, b"group") {
        return Head::Names(Predicate::Group, at + 5);
    }
    if has_word(text, at, b"feature") {
        return Head::Names(Predicate::Feature, at + 7);
    }
    plain_set_of(text, at)
}

/// A set without a matcher, or else a sign.
#[tactic(auto, unfolding(crate::specs::Heads::plain_set_at))]
fn plain_set_of(text: &str, at: usize) -> Head
    ensures { result ≡ plain_set_at text.now at }
{
    if has_word(text, at, b"platform") {
        return Head::Platform(at + 8);
    }
    if has_word(text, at, b"default") {
        return Head::Says(Nullary::Default, at + 7);
    }
    if has_word(text, at, b"all") {
        return Head::Says(Nullary::All, at + 3);
    }
    if has_word(text, at, b"none") {
        return Head::Says(Nullary::None, at + 4);
    }
    sign_of(text, at)
}

/// A negation or a parenthesis, or else what is misplaced.
#[tactic(auto, unfolding(crate::specs::Heads::sign_at))]
fn sign_of(text: &str, at: usize) -> Head
    ensures { result ≡ sign_at text.now at }
{
    if has_whole_word(text, at, b"not") {
        return Head::Negates(NotOperator::LiteralNot, at + 3);
    }
    if has_word(text, at, b"!") {
        return Head::Negates(NotOperator::Exclamation, at + 1);
    }
    if has_word(text, at, b"(") {
        return Head::Opens(at + 1);
    }
    misplaced_of(text, at)
}

/// An operator that stands in an operand's place.
#[tactic(auto, unfolding(crate::specs::Heads::misplaced_at))]
fn misplaced_of(text: &str, at: usize) -> Head
    ensures { result ≡ misplaced_at text.now at }
{
    if has_whole_word(text, at, b"and") {
        return Head::Misplaces(WrongOperator::LowerAnd, at + 3);
    }
    if has_whole_word(text, at, b"or") {
        return Head::Misplaces(WrongOperator::LowerOr, at + 2);
    }
    if has_whole_word(text, at, b"AND") {
        return Head::Misplaces(WrongOperator::UpperAnd, at + 3);
    }
    if has_whole_word(text, at, b"OR") {
        return Head::Misplaces(WrongOperator::UpperOr, at + 2);
    }
    if has_word(text, at, b"&&") {
        return Head::Misplaces(WrongOperator::DoubleAmpersand, at + 2);
    }
    if has_word(text, at, b"||") {
        return Head::Misplaces(WrongOperator::DoublePipe, at + 2);
    }
    if has_whole_word(text, at, b"NOT") {
        return Head::Misplaces(WrongOperator::UpperNot, at + 3);
    }
    Head::Unknown
}
