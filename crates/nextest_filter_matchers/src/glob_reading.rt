//! How a glob is read from its text.

ghost use Rattle.std.specs.Prelude.{◌≡◌, ◌+◌, ◌*◌, ◌<◌, [], false, IfOk, length};
ghost use Rattle.nextest_filter_matchers.specs.GlobReading.{after_alternates, class_at, class_of, class_piece, class_rest, character_piece, or_read, piece_of, then_read, past_directories, read_glob, read_part, Alternates, Outcome, Tokens};
ghost use Rattle.nextest_filter_matchers.specs.GlobViews.{glob_of, tokens_in};
ghost use Rattle.nextest_filter_matchers.specs.ReadingViews.{IsOpen, class_outcome, end_of, end_outcome, outcome_of, piece_view, prefixed, read_view};

use crate::glob_error::GlobError;
use crate::glob_pattern::{CharacterSet, Pattern, Token};
use std::alloc::{AllocError, Global};

/// The ranges of a class, and what follows it.
#[derive(Drop)]
pub(crate) enum ClassRead<'t> {
    Closed(Vec<(char, char)>, &'t [char]),
    Bad(GlobError),
}

/// What stands at the beginning of a text.
#[derive(Drop)]
pub(crate) enum Piece<'t> {
    End,
    Stands(Token, &'t [char]),
    Open(&'t [char]),
    Comma(&'t [char]),
    Close(&'t [char]),
    Bad(GlobError),
}

/// How a run of tokens ends.
#[derive(Drop)]
pub(crate) enum RunEnd<'t> {
    /// At the end of the text or, inside braces, before this `,` or `}`.
    Ends(&'t [char]),
    /// At a brace, before these alternates.
    Opens(&'t [char]),
    Bad(GlobError),
}

/// A pattern, and what follows it.
#[derive(Drop)]
pub(crate) enum PatternRead<'t> {
    Read(Pattern, &'t [char]),
    Bad(GlobError),
}

/// The rest of a class after its first character.
fn class_after<'t>(
    alloc: Global,
    first: char,
    text: &'t [char],
) -> Result<ClassRead<'t>, AllocError>
    ensures { IfOk result (λ r. class_outcome r ≡ class_rest [] first first false text.entry.now) }
{
    let mut ranges = Vec::new(alloc);
    let mut rest = text;
    let (mut low, mut high) = (first, first);
    let mut is_drawn = false;
    while let [c, tail @ ..] = rest {
        let c = *c;
        rest = tail;
        if c == ']' {
            ranges.push((low, high))?;
            if is_drawn {
                ranges.push(('-', '-'))?;
            }
            return Ok(ClassRead::Closed(ranges, rest));
        }
        if is_drawn {
            if c < low {
                return Ok(ClassRead::Bad(GlobError::InvalidRange));
            }
            high = c;
            is_drawn = false;
        } else if c == '-' {
            is_drawn = true;
        } else {
            ranges.push((low, high))?;
            (low, high) = (c, c);
        }
    }
    Ok(ClassRead::Bad(GlobError::UnclosedClass))
}

/// A class after its bracket and its sign.
fn class_in<'t>(
    alloc: Global,
    is_complement: bool,
    text: &'t [char],
) -> Result<Piece<'t>, AllocError>
    ensures { IfOk result (λ p. piece_view p
        ≡ class_piece is_complement (class_of text.entry.now)) }
{
    let [first, rest @ ..] = text else {
        return Ok(Piece::Bad(GlobError::UnclosedClass));
    };
    match class_after(alloc, *first, rest)? {
        ClassRead::Closed(ranges, rest) => {
            let set = CharacterSet::Class {
                is_complement,
                ranges,
            };
            Ok(Piece::Stands(Token::One(set), rest))
        }
        ClassRead::Bad(error) => Ok(Piece::Bad(error)),
    }
}

/// A class after its bracket.
fn class_piece_at<'t>(alloc: Global, text: &'t [char]) -> Result<Piece<'t>, AllocError>
    ensures { IfOk result (λ p. piece_view p ≡ class_at text.entry.now) }
{
    let [sign, rest @ ..] = text else {
        return Ok(Piece::Bad(GlobError::UnclosedClass));
    };
    if *sign == '!' || *sign == '^' {
        let piece = class_in(alloc, true, rest)?;
        return Ok(piece);
    }
    let piece = class_in(alloc, false, text)?;
    Ok(piece)
}

/// What one character begins.
fn character_at<'t>(alloc: Global, c: char, rest: &'t [char]) -> Result<Piece<'t>, AllocError>
    ensures { IfOk result (λ p. piece_view p ≡ character_piece c rest.entry.now) }
{
    match c {
        '?' => Ok(Piece::Stands(Token::One(CharacterSet::Any), rest)),
        '*' => Ok(Piece::Stands(Token::AnyText, rest)),
        '[' => {
            let piece = class_piece_at(alloc, rest)?;
            Ok(piece)
        }
        '{' => Ok(Piece::Open(rest)),
        '}' => Ok(Piece::Close(rest)),
        ',' => Ok(Piece::Comma(rest)),
        _ => Ok(Piece::Stands(Token::One(CharacterSet::Character(c)), rest)),
    }
}

/// The text without the stars of directories at its beginning.
fn after_more_directories<'t>(text: &'t [char]) -> &'t [char]
    ensures { result.now ≡ past_directories text.entry.now }
{
    let mut rest = text;
    while let ['*', '*', '/', tail @ ..] = rest {
        rest = tail;
    }
    rest
}

/// What begins the text, at the front of the glob or not.
fn piece_at<'t>(alloc: Global, is_front: bool, text: &'t [char]) -> Result<Piece<'t>, AllocError>
    ensures { IfOk result (λ p. piece_view p ≡ piece_of is_front text.entry.now) }
{
    if is_front && text.starts_with(&['*', '*', '/']) {
        let rest = after_more_directories(&text[3..]);
        return Ok(Piece::Stands(Token::LeadingDirectories, rest));
    }
    if text.starts_with(&['/', '*', '*', '/']) {
        let rest = after_more_directories(&text[4..]);
        return Ok(Piece::Stands(Token::InnerDirectories, rest));
    }
    if text.len() == 3 && text.starts_with(&['/', '*', '*']) {
        return Ok(Piece::Stands(Token::TrailingDirectories, &[]));
    }
    match text {
        [] => Ok(Piece::End),
        [c, rest @ ..] => {
            let piece = character_at(alloc, *c, rest)?;
            Ok(piece)
        }
    }
}

/// The pattern, or another.
fn or_more<'t>(
    alloc: Global,
    pattern: Pattern,
    more: PatternRead<'t>,
) -> Result<PatternRead<'t>, AllocError>
    ensures { IfOk result (λ r. outcome_of r ≡ or_read (glob_of pattern) (outcome_of more.entry)) }
{
    match more {
        PatternRead::Read(more, rest) => {
            let one = Box::new(alloc, pattern)?;
            let other = Box::new(alloc, more)?;
            Ok(PatternRead::Read(Pattern::Either(one, other), rest))
        }
        PatternRead::Bad(error) => Ok(PatternRead::Bad(error)),
    }
}

/// The pattern, or what is read as another.
fn or_if_read<'t>(
    alloc: Global,
    pattern: Pattern,
    more: Result<PatternRead<'t>, AllocError>,
) -> Result<PatternRead<'t>, AllocError>
    ensures { (o : Outcome) → IfOk more.entry (λ m. outcome_of m ≡ o)
        → IfOk result (λ r. outcome_of r ≡ or_read (glob_of pattern) o) }
{
    match more {
        Ok(more) => or_more(alloc, pattern, more),
        Err(refused) => {
            drop(pattern);
            Err(refused)
        }
    }
}

/// Reads tokens up to a brace, to the end of the text or to that of the alternate that they stand in, and
/// adds them to those. Of the tokens that there may be at most it gives how many are left.
fn run<'t>(
    alloc: Global,
    left: usize,
    is_front: bool,
    is_inside: bool,
    text: &'t [char],
    tokens: &mut Vec<Token>,
) -> Result<(usize, RunEnd<'t>), AllocError>
    requires { tokens.old.items ≡ [] }
    ensures reads { IfOk result (λ r. prefixed (tokens_in tokens.new.items)
        (end_outcome (read_part r.0) is_inside (end_of r.1))
        ≡ read_part left (Tokens is_front is_inside) text.entry.now) }
    ensures fewer { IfOk result (λ r. IsOpen (end_of r.1) → r.0 < left) }
{
    let mut rest = text;
    let mut left = left;
    let mut is_front = is_front;
    while left > 0 {
        left -= 1;
        match piece_at(alloc, is_front, rest)? {
            Piece::Stands(token, more) => {
                tokens.push(token)?;
                rest = more;
            }
            Piece::Comma(more) if !is_inside => {
                tokens.push(Token::One(CharacterSet::Character(',')))?;
                rest = more;
            }
            Piece::Comma(_) => return Ok((left, RunEnd::Ends(rest))),
            Piece::Open(more) => return Ok((left, RunEnd::Opens(more))),
            Piece::End if !is_inside => return Ok((left, RunEnd::Ends(&[]))),
            Piece::End => return Ok((left, RunEnd::Bad(GlobError::UnclosedAlternates))),
            Piece::Close(_) if is_inside => return Ok((left, RunEnd::Ends(rest))),
            Piece::Close(_) => return Ok((left, RunEnd::Bad(GlobError::UnopenedAlternates))),
            Piece::Bad(error) => return Ok((left, RunEnd::Bad(error))),
        }
        is_front = false;
    }
    Ok((0, RunEnd::Bad(GlobError::UnclosedAlternates)))
}

/// Reads tokens and alternates, at most so many, up to the end of the text or of the alternate that they
/// stand in.
#[cycle(reading)]
fn sequence<'t>(
    alloc: Global,
    left: usize,
    is_front: bool,
    is_inside: bool,
    text: &'t [char],
) -> Result<PatternRead<'t>, AllocError>
    ensures { IfOk result (λ r. outcome_of r
        ≡ read_part left (Tokens is_front is_inside) text.entry.now) }
{
    let mut tokens = Vec::new(alloc);
    let (left, end) = run(alloc, left, is_front, is_inside, text, &mut tokens)?;
    match end {
        RunEnd::Ends(rest) => Ok(PatternRead::Read(Pattern::Sequence(tokens), rest)),
        RunEnd::Opens(rest) => grouped(alloc, left, is_inside, tokens, rest),
        RunEnd::Bad(error) => Ok(PatternRead::Bad(error)),
    }
}

/// Reads alternates after a brace, which stand behind the tokens, and what follows them.
#[cycle(reading)]
fn grouped<'t>(
    alloc: Global,
    left: usize,
    is_inside: bool,
    tokens: Vec<Token>,
    text: &'t [char],
) -> Result<PatternRead<'t>, AllocError>
    ensures { IfOk result (λ r. outcome_of r
        ≡ prefixed (tokens_in tokens.items)
        (after_alternates (read_part left) is_inside (read_part left Alternates text.entry.now))) }
{
    match alternates(alloc, left, text)? {
        PatternRead::Read(group, rest) => {
            let more = sequence(alloc, left, false, is_inside, rest)?;
            group_then(alloc, tokens, group, more)
        }
        PatternRead::Bad(error) => Ok(PatternRead::Bad(error)),
    }
}

/// The tokens, the alternates, and then more.
fn group_then<'t>(
    alloc: Global,
    tokens: Vec<Token>,
    group: Pattern,
    more: PatternRead<'t>,
) -> Result<PatternRead<'t>, AllocError>
    ensures { IfOk result (λ r. outcome_of r
        ≡ prefixed (tokens_in tokens.items) (then_read (glob_of group) (outcome_of more.entry))) }
{
    match more {
        PatternRead::Read(more, rest) => {
            let group = Box::new(alloc, group)?;
            let more = Box::new(alloc, more)?;
            Ok(PatternRead::Read(Pattern::Grouped(tokens, group, more), rest))
        }
        PatternRead::Bad(error) => Ok(PatternRead::Bad(error)),
    }
}

/// Reads alternates after a brace or a comma, up to the brace that closes them.
#[cycle(reading)]
fn alternates<'t>(
    alloc: Global,
    left: usize,
    text: &'t [char],
) -> Result<PatternRead<'t>, AllocError>
    ensures { IfOk result (λ r. outcome_of r ≡ read_part left Alternates text.entry.now) }
{
    if left == 0 {
        return Ok(PatternRead::Bad(GlobError::UnclosedAlternates));
    }
    match sequence(alloc, left - 1, false, true, text)? {
        PatternRead::Read(pattern, rest) => match rest {
            [',', rest @ ..] => {
                let more = alternates(alloc, left - 1, rest);
                or_if_read(alloc, pattern, more)
            }
            [_, rest @ ..] => Ok(PatternRead::Read(pattern, rest)),
            [] => Ok(PatternRead::Bad(GlobError::UnclosedAlternates)),
        },
        PatternRead::Bad(error) => Ok(PatternRead::Bad(error)),
    }
}

/// Reads a glob, or says why the text is none.
pub(crate) fn read_pattern(
    alloc: Global,
    text: &[char],
) -> Result<Result<Pattern, GlobError>, AllocError>
    ensures { IfOk result (λ r. read_view r ≡ read_glob text.now) }
{
    let left = 2 * text.len() + 1;
    match sequence(alloc, left, true, false, text)? {
        PatternRead::Read(pattern, _) => Ok(Ok(pattern)),
        PatternRead::Bad(error) => Ok(Err(error)),
    }
}
