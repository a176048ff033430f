//! Whether a pattern matches a text, with no flag at all: each way to part the text is tried. That serves
//! patterns with braces that have more tokens than there are flags.

ghost use Rattle.std.specs.List.{list_any};
ghost use Rattle.std.specs.Prelude.{◌≡◌, ◌<◌, ◌++◌, ◌∷◌, ◌↔◌, [], IfNone, IfSome, IsTrue, drop, length, take, true, false};
ghost use Rattle.std.specs.Str.{IsCharBoundary, chars};
ghost use Rattle.nextest_filter_matchers.specs.Globs.{Empty, GlobMatches, Then, tokens_then};
ghost use Rattle.nextest_filter_matchers.specs.GlobViews.{glob_of, tokens_in};
ghost use Rattle.nextest_filter_matchers.specs.Parts.{IsNextCut};
ghost use Rattle.nextest_filter_matchers.specs.Sequences.{leads_first, stands_in_front, stands_nowhere};

use crate::glob_pattern::{Pattern, Token};
use crate::glob_sequence::suits_tokens;

/// The first place where the text can be parted.
fn first_cut(text: &str) -> usize
    ensures start { result ≡ 0 }
    ensures cut { IsCharBoundary text.now result }
{
    0
}

/// The next place behind this one where the text can be parted.
fn next_cut(text: &str, at: usize) -> Option<usize>
    requires { IsCharBoundary text.now at }
    ensures none { IfNone result (drop at text.now ≡ []) }
    ensures some { IfSome result (λ next. IsNextCut text.now at next) }
{
    let (_, back) = text.split_at(at);
    let c = back.chars().next()?;
    Some(at + c.len_utf8())
}

/// Whether the pattern matches the whole text.
#[cycle(search)]
pub(crate) fn parts_match(pattern: &Pattern, text: &str) -> bool
    requires { stands_in_front (glob_of pattern.now) ≡ true }
    ensures { IsTrue result ↔ GlobMatches (glob_of pattern.now) (chars text.now) }
{
    match pattern {
        Pattern::Sequence(tokens) => suits_tokens(tokens, text),
        Pattern::Grouped(tokens, group, more) => matches_tokens(tokens, group, more, text),
        Pattern::Either(one, other) => parts_match(one, text) || parts_match(other, text),
    }
}

/// Whether the tokens match a first part of the text, and the patterns the rest.
#[cycle(search)]
fn matches_tokens(tokens: &[Token], group: &Pattern, more: &Pattern, text: &str) -> bool
    requires tokens { leads_first (tokens_in tokens.now) ≡ true }
    requires group { stands_nowhere (glob_of group.now) ≡ true }
    requires more { stands_nowhere (glob_of more.now) ≡ true }
    ensures { IsTrue result ↔ GlobMatches
        (Then (tokens_then (tokens_in tokens.now) Empty)
        (Then (glob_of group.now) (glob_of more.now))) (chars text.now) }
{
    let mut at = first_cut(text);
    loop {
        let (front, back) = text.split_at(at);
        if suits_tokens(tokens, front) && matches_both(group, more, back) {
            return true;
        }
        match next_cut(text, at) {
            Some(next) => at = next,
            None => return false,
        }
    }
}

/// Whether the first pattern matches a first part of the text, and the other the rest.
#[cycle(search)]
fn matches_both(group: &Pattern, more: &Pattern, text: &str) -> bool
    requires group { stands_nowhere (glob_of group.now) ≡ true }
    requires more { stands_nowhere (glob_of more.now) ≡ true }
    ensures { IsTrue result ↔ GlobMatches (Then (glob_of group.now) (glob_of more.now))
        (chars text.now) }
{
    let mut at = first_cut(text);
    loop {
        let (front, back) = text.split_at(at);
        if parts_match(group, front) && parts_match(more, back) {
            return true;
        }
        match next_cut(text, at) {
            Some(next) => at = next,
            None => return false,
        }
    }
}
