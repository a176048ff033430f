//! The signs before a matcher.

ghost use Rattle.std.specs.Prelude.{◌≡◌};
ghost use Rattle.nextest_filter_syntax.specs.LeafGrammar as spec;

use nextest_filter_tokens::{Predicate, has_byte};

/// What a text says of names.
#[derive(Clone, Copy, Debug, PartialEq, Eq)]
pub enum Style {
    Equal,
    Contains,
    Glob,
}

// Public, since the definitions of the grammar speak of it and the crate of printing cites these.
/// What a matcher begins with.
#[derive(Clone, Copy, Debug, PartialEq, Eq)]
pub enum Sign {
    /// A pattern follows.
    Slash,
    /// A text follows.
    Says(Style),
    /// The text itself.
    Bare,
}

/// What the matcher at the place begins with.
#[tactic(auto, unfolding(crate::specs::LeafGrammar::sign_at))]
pub(crate) fn sign_of(text: &str, at: usize) -> Sign
    ensures { result ≡ spec.sign_at text.now at }
{
    if has_byte(text, at, b'/') {
        return Sign::Slash;
    }
    if has_byte(text, at, b'#') {
        return Sign::Says(Style::Glob);
    }
    if has_byte(text, at, b'=') {
        return Sign::Says(Style::Equal);
    }
    if has_byte(text, at, b'~') {
        return Sign::Says(Style::Contains);
    }
    Sign::Bare
}

/// What a text without a sign says of names.
pub(crate) fn default_style(predicate: Predicate) -> Style
    ensures { result ≡ spec.default_style predicate }
{
    match predicate {
        Predicate::Test => Style::Contains,
        Predicate::Kind => Style::Equal,
        Predicate::Package
        | Predicate::Deps
        | Predicate::Rdeps
        | Predicate::Binary
        | Predicate::BinaryId
        | Predicate::Group
        | Predicate::Feature => Style::Glob,
    }
}
