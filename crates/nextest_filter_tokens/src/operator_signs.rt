//! The ways in which operators are written.

use std::fmt;

/// How a negation is written.
#[derive(Clone, Copy, Debug, PartialEq, Eq, Hash)]
pub enum NotOperator {
    LiteralNot,
    Exclamation,
}

/// How a union is written.
#[derive(Clone, Copy, Debug, PartialEq, Eq, Hash)]
pub enum OrOperator {
    LiteralOr,
    Pipe,
    Plus,
}

/// How an intersection is written.
#[derive(Clone, Copy, Debug, PartialEq, Eq, Hash)]
pub enum AndOperator {
    LiteralAnd,
    Ampersand,
}

/// How a difference is written.
#[derive(Clone, Copy, Debug, PartialEq, Eq, Hash)]
pub enum DifferenceOperator {
    Minus,
}

impl fmt::Display for NotOperator {
    ghost use Rattle.std.specs.Prelude.{Some};
    ghost use Rattle.nextest_filter_tokens.specs.Signs.{not_sign};

    ghost output = { λ o. Some (not_sign o) };

    fn fmt<W: fmt::Write>(&self, f: &mut fmt::Formatter<W>) -> fmt::Result {
        match self {
            NotOperator::LiteralNot => f.write_str("not"),
            NotOperator::Exclamation => f.write_str("!"),
        }
    }
}

impl fmt::Display for OrOperator {
    ghost use Rattle.std.specs.Prelude.{Some};
    ghost use Rattle.nextest_filter_tokens.specs.Signs.{or_sign};

    ghost output = { λ o. Some (or_sign o) };

    fn fmt<W: fmt::Write>(&self, f: &mut fmt::Formatter<W>) -> fmt::Result {
        match self {
            OrOperator::LiteralOr => f.write_str("or"),
            OrOperator::Pipe => f.write_str("|"),
            OrOperator::Plus => f.write_str("+"),
        }
    }
}

impl fmt::Display for AndOperator {
    ghost use Rattle.std.specs.Prelude.{Some};
    ghost use Rattle.nextest_filter_tokens.specs.Signs.{and_sign};

    ghost output = { λ o. Some (and_sign o) };

    fn fmt<W: fmt::Write>(&self, f: &mut fmt::Formatter<W>) -> fmt::Result {
        match self {
            AndOperator::LiteralAnd => f.write_str("and"),
            AndOperator::Ampersand => f.write_str("&"),
        }
    }
}

impl fmt::Display for DifferenceOperator {
    ghost use Rattle.std.specs.Prelude.{Some, codes};

    ghost output = { λ _. Some (codes "-") };

    fn fmt<W: fmt::Write>(&self, f: &mut fmt::Formatter<W>) -> fmt::Result {
        match self {
            DifferenceOperator::Minus => f.write_str("-"),
        }
    }
}
