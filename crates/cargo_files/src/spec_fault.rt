//! Why a text is no platform spec, and where.

use std::fmt;

/// What was expected where reading stopped.
#[derive(Clone, Copy, Debug, Drop, PartialEq, Eq)]
pub enum Expected {
    /// A name, `all(`, `any(`, `not(`, `true` or `false`.
    Name,
    /// `(`, behind `all`, `any` or `not`.
    Opening,
    /// A text in double quotes, behind `=`.
    Text,
    /// The double quote that ends a text.
    Quote,
    /// `,` or `)`, behind an expression.
    Separator,
    /// `)`, behind an expression.
    Closing,
    /// Nothing more.
    End,
    /// An expression that is nested less deep.
    LessDeep,
    /// A target triple of letters, digits, `_`, `-` and `.`, or else `cfg(`.
    Triple,
}

impl fmt::Display for Expected {
    fn fmt<W: fmt::Write>(&self, f: &mut fmt::Formatter<W>) -> fmt::Result {
        f.write_str(match self {
            Expected::Name => "expected a name, `all(`, `any(` or `not(`",
            Expected::Opening => "expected `(`",
            Expected::Text => "expected a text in double quotes",
            Expected::Quote => "expected a closing double quote",
            Expected::Separator => "expected `,` or `)`",
            Expected::Closing => "expected `)`",
            Expected::End => "expected the end",
            Expected::LessDeep => "nested more than 128 deep",
            Expected::Triple => "expected `cfg(` or the name of a target",
        })
    }
}

/// Why a text is not read: what was expected, and the byte at which it is missing.
#[derive(Clone, Copy, Debug, Drop, PartialEq, Eq)]
pub struct SpecFault {
    pub at: usize,
    pub wanted: Expected,
}

impl fmt::Display for SpecFault {
    fn fmt<W: fmt::Write>(&self, f: &mut fmt::Formatter<W>) -> fmt::Result {
        write!(f, "byte {}: {}", self.at, self.wanted)
    }
}
