//! Whether tokens match a text, without a flag for each: single characters are compared one by one up to
//! the next token that leaves out any text, and what follows that is tried at one place after another.
//! The first place where it goes on is as good as any later one, so no earlier token is tried again.

ghost use Rattle.std.specs.List.{list_any};
ghost use Rattle.std.specs.Prelude.{◌≡◌, ◌∷◌, ◌↔◌, ℕ, IfNone, IfSome, IsTrue, List, [], false, true};
ghost use Rattle.std.specs.Str.{chars};
ghost use Rattle.nextest_filter_matchers.specs.Globs.{Empty, GlobMatches, spelled, tokens_then};
ghost use Rattle.nextest_filter_matchers.specs.GlobViews.{glob_of, tokens_in};
ghost use Rattle.nextest_filter_matchers.specs.Sequences.{Gap, IsBehind, IsFewer, SuitsStop, SuitsTokens, is_leading, leads_first, stop_in};
ghost use Rattle.nextest_filter_matchers.specs.StopViews.{stop_of};

use crate::glob_pattern::{CharacterSet, Pattern, Token};

/// Where the single characters at the front of some tokens end.
#[derive(Clone, Copy)]
pub(crate) enum Stop<'g, 't> {
    /// At the end of the tokens and of the text.
    End,
    /// Before a gap: any text or, of folders, nothing or what ends in a slash. Behind it the tokens follow.
    Gap(bool, &'g [Token], &'t str),
}

/// The first character of a text, and what follows it.
fn first_of<'t>(text: &'t str) -> Option<(char, &'t str)>
    ensures none { IfNone result (chars text.entry.now ≡ []) }
    ensures some { IfSome result (λ r. chars text.entry.now ≡ r.0 ∷ chars r.1.now) }
{
    let mut characters = text.chars();
    let first = characters.next()?;
    Some((first, characters.as_str()))
}

/// The gap behind a slash, if the text begins with one.
fn gap_behind_slash<'g, 't>(
    of_folders: bool,
    tokens: &'g [Token],
    text: &'t str,
) -> Option<Stop<'g, 't>>
    ensures none { (more : List ℕ) → IfNone result (chars text.entry.now ≡ 47 ∷ more → ⊥) }
    ensures some { IfSome result (λ s. (more : List ℕ) × (chars text.entry.now ≡ 47 ∷ more)
        × (stop_of s ≡ Gap of_folders (tokens_in tokens.entry.now) more)) }
{
    match first_of(text) {
        Some(('/', left)) => Some(Stop::Gap(of_folders, tokens, left)),
        _ => None,
    }
}

/// Where the single characters at the front of the tokens end, if the text begins with such.
fn stop_after<'g, 't>(tokens: &'g [Token], text: &'t str) -> Option<Stop<'g, 't>>
    ensures none { IfNone result (SuitsTokens (tokens_in tokens.entry.now) (chars text.entry.now)
        → ⊥) }
    ensures some { IfSome result (λ s. (SuitsStop (stop_of s)
        → SuitsTokens (tokens_in tokens.entry.now) (chars text.entry.now))
        × (stop_of s ≡ stop_in (tokens_in tokens.entry.now) (chars text.entry.now))) }
{
    let mut rest = tokens;
    let mut left = text;
    while let Some((token, more)) = rest.split_first() {
        match token {
            Token::One(set) => match first_of(left) {
                Some((c, behind)) if set.has(c) => left = behind,
                _ => return None,
            },
            Token::AnyText => return Some(Stop::Gap(false, more, left)),
            Token::LeadingDirectories => return Some(Stop::Gap(true, more, left)),
            Token::InnerDirectories => return gap_behind_slash(true, more, left),
            Token::TrailingDirectories => return gap_behind_slash(false, more, left),
        }
        rest = more;
    }
    if left.is_empty() {
        return Some(Stop::End);
    }
    None
}

/// The next stop behind a gap: the tokens follow at the first place at which they can.
fn stop_behind<'g, 't>(of_folders: bool, tokens: &'g [Token], text: &'t str) -> Option<Stop<'g, 't>>
    requires { list_any is_leading (tokens_in tokens.now) ≡ false }
    ensures none { IfNone result (IsBehind of_folders true
        (SuitsTokens (tokens_in tokens.entry.now)) (chars text.entry.now) → ⊥) }
    ensures some { IfSome result (λ s. IsBehind of_folders true
        (SuitsTokens (tokens_in tokens.entry.now)) (chars text.entry.now) ↔ SuitsStop (stop_of s)) }
    ensures fewer { IfSome result (λ s. IsFewer (tokens_in tokens.entry.now) (stop_of s)) }
{
    let mut left = text;
    let mut is_here = true;
    loop {
        if let Some(stop) = stop_if(is_here, tokens, left) {
            return Some(stop);
        }
        let (c, behind) = first_of(left)?;
        is_here = !of_folders || c == '/';
        left = behind;
    }
}

/// Where the single characters end, if the tokens may stand here.
fn stop_if<'g, 't>(is_here: bool, tokens: &'g [Token], text: &'t str) -> Option<Stop<'g, 't>>
    ensures none { IfNone result (is_here ≡ true
        → SuitsTokens (tokens_in tokens.entry.now) (chars text.entry.now) → ⊥) }
    ensures here { IfSome result (λ _. is_here ≡ true) }
    ensures some { IfSome result (λ s. (SuitsStop (stop_of s)
        → SuitsTokens (tokens_in tokens.entry.now) (chars text.entry.now))
        × (stop_of s ≡ stop_in (tokens_in tokens.entry.now) (chars text.entry.now))) }
{
    if is_here {
        return stop_after(tokens, text);
    }
    None
}

/// Whether the tokens match the whole text, in no more steps than the tokens times the characters.
pub(crate) fn suits_tokens(tokens: &[Token], text: &str) -> bool
    requires { leads_first (tokens_in tokens.now) ≡ true }
    ensures { IsTrue result ↔ GlobMatches (tokens_then (tokens_in tokens.now) Empty)
        (chars text.now) }
{
    let mut stop = stop_after(tokens, text);
    while let Some(Stop::Gap(of_folders, more, left)) = stop {
        stop = stop_behind(of_folders, more, left);
    }
    stop.is_some()
}

impl Pattern {
    /// Whether the tokens are these characters.
    pub(crate) fn spells(&self, characters: &[char]) -> bool
        ensures { IsTrue result → glob_of self.now ≡ spelled characters.now }
    {
        match self {
            Pattern::Sequence(tokens) => are_characters(tokens, characters),
            _ => false,
        }
    }
}

fn are_characters(tokens: &[Token], characters: &[char]) -> bool
    ensures { IsTrue result → tokens_then (tokens_in tokens.now) Empty ≡ spelled characters.now }
{
    let mut rest = characters;
    for token in tokens {
        match (token, rest) {
            (Token::One(CharacterSet::Character(c)), [d, more @ ..]) if *c == *d => rest = more,
            _ => return false,
        }
    }
    rest.is_empty()
}
