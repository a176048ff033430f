//! What a glob is made of, and how it matches.

ghost use Rattle.std.specs.List.{list_any};
ghost use Rattle.std.specs.Prelude.{◌≡◌, IfOk};
ghost use Rattle.nextest_filter_matchers.specs.Globs.{is_in_range, is_in_set};
ghost use Rattle.nextest_filter_matchers.specs.GlobViews.{glob_of, set_of, token_of, tokens_in};
ghost use Rattle.nextest_filter_matchers.specs.Identities.{glob_eq, set_eq};

use std::alloc::{AllocError, Global};

/// What one character of a name may be.
#[derive(Debug, Drop)]
pub(crate) enum CharacterSet {
    Character(char),
    Any,
    /// The characters of the ranges, or all others.
    Class {
        is_complement: bool,
        ranges: Vec<(char, char)>,
    },
}

/// What a part of a name may be.
#[derive(Debug, Drop)]
pub(crate) enum Token {
    /// One character of a set.
    One(CharacterSet),
    /// Any characters: `*`.
    AnyText,
    /// Nothing, or any characters and a slash: `**/` at the front.
    LeadingDirectories,
    /// A slash, and then nothing or any characters and a slash: `/**/`.
    InnerDirectories,
    /// A slash and any characters: `/**` at the end.
    TrailingDirectories,
}

/// What a name may be. No token is a step of any recursion: only what braces hold is.
#[derive(Debug, Drop)]
pub(crate) enum Pattern {
    /// Tokens one after another.
    Sequence(Vec<Token>),
    /// Tokens, then what stands in braces, then more.
    Grouped(Vec<Token>, Box<Pattern>, Box<Pattern>),
    /// One of the alternates in braces, or the others.
    Either(Box<Pattern>, Box<Pattern>),
}

impl CharacterSet {
    /// Whether the character is one of the set.
    pub(crate) fn has(&self, c: char) -> bool
        ensures { result ≡ is_in_set (set_of self.now) c }
    {
        match self {
            CharacterSet::Character(d) => c == *d,
            CharacterSet::Any => true,
            CharacterSet::Class {
                is_complement,
                ranges,
            } => is_within(ranges.as_slice(), c) != *is_complement,
        }
    }

    /// Whether both are made of the same ranges in the same order, or are the same otherwise.
    fn is_same(&self, other: &CharacterSet) -> bool
        ensures { result ≡ set_eq (set_of self.now) (set_of other.now) }
    {
        match (self, other) {
            (CharacterSet::Character(c), CharacterSet::Character(d)) => c == d,
            (CharacterSet::Any, CharacterSet::Any) => true,
            (
                CharacterSet::Class {
                    is_complement,
                    ranges,
                },
                CharacterSet::Class {
                    is_complement: other_is,
                    ranges: others,
                },
            ) => is_complement == other_is && ranges == others,
            _ => false,
        }
    }

    fn copy(&self, alloc: Global) -> Result<CharacterSet, AllocError>
        ensures { IfOk result (λ c. set_of c ≡ set_of self.now) }
    {
        match self {
            CharacterSet::Character(c) => Ok(CharacterSet::Character(*c)),
            CharacterSet::Any => Ok(CharacterSet::Any),
            CharacterSet::Class {
                is_complement,
                ranges,
            } => {
                let is_complement = *is_complement;
                let ranges = Vec::from_slice(alloc, ranges.as_slice())?;
                Ok(CharacterSet::Class {
                    is_complement,
                    ranges,
                })
            }
        }
    }
}

fn is_within(ranges: &[(char, char)], c: char) -> bool
    ensures { result ≡ list_any (is_in_range c) ranges.now }
{
    ranges.iter().any(|(low, high)| *low <= c && c <= *high)
}

impl Token {
    fn copy(&self, alloc: Global) -> Result<Token, AllocError>
        ensures { IfOk result (λ c. token_of c ≡ token_of self.now) }
    {
        match self {
            Token::One(set) => {
                let set = set.copy(alloc)?;
                Ok(Token::One(set))
            }
            Token::AnyText => Ok(Token::AnyText),
            Token::LeadingDirectories => Ok(Token::LeadingDirectories),
            Token::InnerDirectories => Ok(Token::InnerDirectories),
            Token::TrailingDirectories => Ok(Token::TrailingDirectories),
        }
    }
}

impl PartialEq for Token {
    ghost use Rattle.nextest_filter_matchers.specs.Matchers.{same_token, same_tokens_equivalent};
    ghost use Rattle.std.specs.Cmp.{partial_equiv_from_equiv};

    ghost eq = { same_token };

    ghost laws = { partial_equiv_from_equiv same_tokens_equivalent };

    fn eq(&self, other: &Token) -> bool {
        match (self, other) {
            (Token::One(set), Token::One(other)) => set.is_same(other),
            (Token::AnyText, Token::AnyText) => true,
            (Token::LeadingDirectories, Token::LeadingDirectories) => true,
            (Token::InnerDirectories, Token::InnerDirectories) => true,
            (Token::TrailingDirectories, Token::TrailingDirectories) => true,
            _ => false,
        }
    }
}

/// Equal tokens in memory of their own.
fn copy_tokens(tokens: &[Token], alloc: Global) -> Result<Vec<Token>, AllocError>
    ensures { IfOk result (λ c. tokens_in c.items ≡ tokens_in tokens.now) }
{
    let mut copied = Vec::with_capacity(alloc, tokens.len())?;
    for token in tokens {
        copied.push(token.copy(alloc)?)?;
    }
    Ok(copied)
}

impl Pattern {
    /// Whether both have the same tokens.
    pub(crate) fn is_same(&self, other: &Pattern) -> bool
        ensures { result ≡ glob_eq (glob_of self.now) (glob_of other.now) }
    {
        match (self, other) {
            (Pattern::Sequence(tokens), Pattern::Sequence(others)) => tokens == others,
            (Pattern::Grouped(tokens, a, b), Pattern::Grouped(others, c, d)) => {
                tokens == others && a.is_same(c) && b.is_same(d)
            }
            (Pattern::Either(a, b), Pattern::Either(c, d)) => a.is_same(c) && b.is_same(d),
            _ => false,
        }
    }

    /// An equal pattern in memory of its own.
    pub(crate) fn copy(&self, alloc: Global) -> Result<Pattern, AllocError>
        ensures { IfOk result (λ c. glob_of c ≡ glob_of self.now) }
    {
        match self {
            Pattern::Sequence(tokens) => {
                let tokens = copy_tokens(tokens, alloc)?;
                Ok(Pattern::Sequence(tokens))
            }
            Pattern::Grouped(tokens, group, more) => {
                let tokens = copy_tokens(tokens, alloc)?;
                let group = Box::new(alloc, group.copy(alloc)?)?;
                let more = Box::new(alloc, more.copy(alloc)?)?;
                Ok(Pattern::Grouped(tokens, group, more))
            }
            Pattern::Either(one, other) => {
                let one = Box::new(alloc, one.copy(alloc)?)?;
                let other = Box::new(alloc, other.copy(alloc)?)?;
                Ok(Pattern::Either(one, other))
            }
        }
    }
}
