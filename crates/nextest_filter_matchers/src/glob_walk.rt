//! Whether a pattern matches a text, by one walk over the text. What is known of the places before the
//! walk's is a flag or two for each token, so no memory is taken.

ghost use Rattle.std.specs.Prelude.{◌≡◌, ◌+◌, ◌≤◌, ◌<◌, ◌↔◌, ℕ, false, IfSome, IsTrue, length};
ghost use Rattle.std.specs.Str.{chars};
ghost use Rattle.nextest_filter_matchers.specs.Globs.{Glob, GlobMatches, tokens_then};
ghost use Rattle.nextest_filter_matchers.specs.GlobViews.{glob_of, set_of, token_of, tokens_in};
ghost use Rattle.nextest_filter_matchers.specs.Walks.{flag_at, one_step, text_step, directories_step, token_step, token_room, glob_step, room, tokens_room as room_of_tokens};

use crate::glob_pattern::{CharacterSet, Pattern, Token};

/// The flags that are set aside for a pattern of few tokens, and the most that one may have.
const FEW_FLAGS: usize = 256;

const MANY_FLAGS: usize = 65_536;

fn both_rooms(one: usize, other: usize) -> Option<usize>
    requires one { one ≤ 65536 }
    requires other { other ≤ 65536 }
    ensures sum { IfSome result (λ r. r ≡ one + other) }
    ensures fits { IfSome result (λ r. r ≤ 65536) }
{
    if one + other > MANY_FLAGS {
        return None;
    }
    Some(one + other)
}

/// Whether one character of the set ends here, behind the character. The flag says whether it may
/// begin at the place before, and then whether it may at this one.
fn one_ends(set: &CharacterSet, c: char, is_begun: bool, flags: &mut [bool], at: usize) -> bool
    requires { at < length flags.old }
    ensures led { result ≡ (one_step (set_of set.now) c is_begun flags.old at).is_led }
    ensures flags { flags.new ≡ (one_step (set_of set.now) c is_begun flags.old at).flags }
{
    let was_begun = flags[at];
    flags[at] = is_begun;
    was_begun && set.has(c)
}

/// Whether any characters end here. The flag says whether they may begin at a place so far.
fn text_ends(is_begun: bool, flags: &mut [bool], at: usize) -> bool
    requires { at < length flags.old }
    ensures led { result ≡ (text_step is_begun flags.old at).is_led }
    ensures flags { flags.new ≡ (text_step is_begun flags.old at).flags }
{
    let may_begin = flags[at] || is_begun;
    flags[at] = may_begin;
    may_begin
}

/// Whether nothing, or any characters and a slash, end here, behind the character.
fn directories_end(c: char, is_begun: bool, flags: &mut [bool], at: usize) -> bool
    requires { at < length flags.old }
    ensures led { result ≡ (directories_step c is_begun flags.old at).is_led }
    ensures flags { flags.new ≡ (directories_step c is_begun flags.old at).flags }
{
    let was_begun = flags[at];
    flags[at] = was_begun || is_begun;
    is_begun || (was_begun && c == '/')
}

impl Token {
    /// How many flags the token has.
    fn room(&self) -> usize
        ensures { result ≡ token_room (token_of self.now) }
    {
        match self {
            Token::One(_) | Token::AnyText | Token::LeadingDirectories => 1,
            Token::InnerDirectories | Token::TrailingDirectories => 2,
        }
    }

    /// Whether the token ends here, behind the character, and where the flags of the next one begin.
    fn step(&self, c: char, is_begun: bool, flags: &mut [bool], at: usize) -> (bool, usize)
        requires { at + token_room (token_of self.now) ≤ length flags.old }
        ensures led { result.0 ≡ (token_step (token_of self.now) c is_begun flags.old at).is_led }
        ensures next { result.1 ≡ at + token_room (token_of self.now) }
        ensures flags { flags.new ≡ (token_step (token_of self.now) c is_begun flags.old at).flags }
    {
        let slash = CharacterSet::Character('/');
        match self {
            Token::One(set) => (one_ends(set, c, is_begun, flags, at), at + 1),
            Token::AnyText => (text_ends(is_begun, flags, at), at + 1),
            Token::LeadingDirectories => (directories_end(c, is_begun, flags, at), at + 1),
            Token::InnerDirectories => {
                let is_slash = one_ends(&slash, c, is_begun, flags, at);
                (directories_end(c, is_slash, flags, at + 1), at + 2)
            }
            Token::TrailingDirectories => {
                let is_slash = one_ends(&slash, c, is_begun, flags, at);
                (text_ends(is_slash, flags, at + 1), at + 2)
            }
        }
    }
}

/// How many flags the tokens have; none for more than there may be.
fn tokens_room(tokens: &[Token]) -> Option<usize>
    ensures room { IfSome result (λ r. r ≡ room_of_tokens (tokens_in tokens.now)) }
    ensures fits { IfSome result (λ r. r ≤ 65536) }
{
    let mut count = 0;
    for token in tokens {
        if count >= MANY_FLAGS - 1 {
            return None;
        }
        count += token.room();
    }
    Some(count)
}

/// Whether the tokens end here, one after another, and where the flags of what follows begin.
fn tokens_step(
    tokens: &[Token],
    c: char,
    is_begun: bool,
    flags: &mut [bool],
    at: usize,
) -> (bool, usize)
    requires { at + room_of_tokens (tokens_in tokens.now) ≤ length flags.old }
    ensures step { (more : Glob) → glob_step (tokens_then (tokens_in tokens.now) more) c is_begun
        flags.old at ≡ glob_step more c result.0 flags.new result.1 }
    ensures next { result.1 ≡ at + room_of_tokens (tokens_in tokens.now) }
    ensures size { length flags.new ≡ length flags.old }
{
    let mut is_led = is_begun;
    let mut next = at;
    for token in tokens {
        (is_led, next) = token.step(c, is_led, flags, next);
    }
    (is_led, next)
}

impl Pattern {
    /// How many flags the pattern has; none for more than there may be.
    #[tactic(auto, using(crate::proofs::SequenceFacts::room_then))]
    pub(crate) fn room(&self) -> Option<usize>
        ensures room { IfSome result (λ r. r ≡ room (glob_of self.now)) }
        ensures fits { IfSome result (λ r. r ≤ 65536) }
    {
        match self {
            Pattern::Sequence(tokens) => tokens_room(tokens),
            Pattern::Grouped(tokens, group, more) => {
                let front = both_rooms(tokens_room(tokens)?, group.room()?)?;
                both_rooms(front, more.room()?)
            }
            Pattern::Either(one, other) => both_rooms(one.room()?, other.room()?),
        }
    }

    /// Whether the pattern ends here, behind the character, and where the flags of the next one begin.
    #[tactic(auto, using(crate::proofs::SequenceFacts::room_then))]
    fn step(&self, c: char, is_begun: bool, flags: &mut [bool], at: usize) -> (bool, usize)
        requires { at + room (glob_of self.now) ≤ length flags.old }
        ensures led { result.0 ≡ (glob_step (glob_of self.now) c is_begun flags.old at).is_led }
        ensures next { result.1 ≡ at + room (glob_of self.now) }
        ensures flags { flags.new ≡ (glob_step (glob_of self.now) c is_begun flags.old at).flags }
        ensures size { length flags.new ≡ length flags.old }
    {
        match self {
            Pattern::Sequence(tokens) => tokens_step(tokens, c, is_begun, flags, at),
            Pattern::Grouped(tokens, group, more) => {
                let (is_led, next) = tokens_step(tokens, c, is_begun, flags, at);
                let (is_led, next) = group.step(c, is_led, flags, next);
                more.step(c, is_led, flags, next)
            }
            Pattern::Either(one, other) => {
                let (is_led, next) = one.step(c, is_begun, flags, at);
                let (is_other_led, end) = other.step(c, is_begun, flags, next);
                (is_led || is_other_led, end)
            }
        }
    }
}

/// Whether the pattern matches the whole text, where no flag is set yet.
fn leads_through(pattern: &Pattern, flags: &mut [bool], text: &str) -> bool
    requires room { room (glob_of pattern.now) ≤ length flags.old }
    requires unset { (i : ℕ) → flag_at flags.old i ≡ false }
    ensures { IsTrue result ↔ GlobMatches (glob_of pattern.now) (chars text.now) }
{
    let (mut is_led, _) = pattern.step('/', true, flags, 0);
    for c in text.chars() {
        (is_led, _) = pattern.step(c, false, flags, 0);
    }
    is_led
}

/// Whether the pattern, which has at most so many flags, matches the whole text.
pub(crate) fn walks_through(pattern: &Pattern, count: usize, text: &str) -> bool
    requires room { room (glob_of pattern.now) ≤ count }
    requires fits { count ≤ 65536 }
    ensures { IsTrue result ↔ GlobMatches (glob_of pattern.now) (chars text.now) }
{
    if count <= FEW_FLAGS {
        return walks_by_few(pattern, text);
    }
    walks_by_many(pattern, text)
}

fn walks_by_few(pattern: &Pattern, text: &str) -> bool
    requires { room (glob_of pattern.now) ≤ 256 }
    ensures { IsTrue result ↔ GlobMatches (glob_of pattern.now) (chars text.now) }
{
    let mut flags = [false; FEW_FLAGS];
    leads_through(pattern, &mut flags, text)
}

fn walks_by_many(pattern: &Pattern, text: &str) -> bool
    requires { room (glob_of pattern.now) ≤ 65536 }
    ensures { IsTrue result ↔ GlobMatches (glob_of pattern.now) (chars text.now) }
{
    let mut flags = [false; MANY_FLAGS];
    leads_through(pattern, &mut flags, text)
}
