//! What expressions say under settings, as they are read from their text.

ghost use Rattle.std.specs.Prelude.{◌≡◌, ◌≤◌, ◌<◌, ◌+◌, ◌&&◌, ◌||◌, ℕ, suc, length, Some, None, IfOk, IfErr, IsOkAnd, if◌then◌else◌};
ghost use Rattle.cargo_files.specs.Bytes.{after};
ghost use Rattle.cargo_files.specs.Expressions.{Cfg, says};
ghost use Rattle.cargo_files.specs.Grammar.{Reads, ReadsEach, next_place};

use crate::bytes::after;
use crate::head::{Head, head_of};
use crate::setting::{CfgSetting, has_name, has_pair};
use crate::spec_fault::{Expected, SpecFault};

/// The room that is left inside an expression at the place.
fn room_inside(room: usize, at: usize) -> Result<usize, SpecFault>
    ensures ok { IfOk result (λ inside. room ≡ suc inside) }
    ensures err { IfErr result (λ fault. (room ≡ 0) × (fault.at ≡ at)) }
{
    if room == 0 {
        let wanted = Expected::LessDeep;
        return Err(SpecFault { at, wanted });
    }
    Ok(room - 1)
}

/// The place after the parenthesis that has to stand behind the place.
pub(crate) fn closed(text: &[u8], at: usize) -> Result<usize, SpecFault>
    requires { at ≤ length text.now }
    ensures ok { IfOk result (λ end. after text.now at 41 ≡ Some end) }
    ensures rises { IfOk result (λ end. at < end) }
    ensures end { IfOk result (λ end. end ≤ length text.now) }
    ensures err { IfErr result (λ fault. after text.now at 41 ≡ None) }
    ensures within { IfErr result (λ fault. fault.at ≤ length text.now) }
{
    match after(text, at, b')') {
        Some(end) => Ok(end),
        None => {
            let wanted = Expected::Closing;
            Err(SpecFault { at, wanted })
        }
    }
}

/// The place after the comma behind the place, or the place itself, if `)` stands behind it.
#[tactic(auto, unfolding(crate::specs::Grammar::next_place))]
fn next_place(text: &[u8], at: usize) -> Result<usize, SpecFault>
    requires { at ≤ length text.now }
    ensures ok { IfOk result (λ next. next_place text.now at ≡ Some next) }
    ensures rises { IfOk result (λ next. at ≤ next) }
    ensures end { IfOk result (λ next. next ≤ length text.now) }
    ensures err { IfErr result (λ fault. next_place text.now at ≡ None) }
    ensures within { IfErr result (λ fault. fault.at ≤ length text.now) }
{
    if let Some(next) = after(text, at, b',') {
        return Ok(next);
    }
    match after(text, at, b')') {
        Some(_) => Ok(at),
        None => {
            let wanted = Expected::Separator;
            Err(SpecFault { at, wanted })
        }
    }
}

/// Two answers of a group, in which every one or some one has to hold.
fn joined(every: bool, first: bool, second: bool) -> bool
    ensures { result ≡ (if every then first && second else first || second) }
{
    if every {
        first && second
    } else {
        first || second
    }
}

/// What the expression at the place says under the settings, and the place after it.
#[cycle(reading)]
pub(crate) fn expression(
    text: &[u8],
    settings: &[CfgSetting],
    room: usize,
    at: usize,
) -> Result<(bool, usize), SpecFault>
    requires { at ≤ length text.now }
    ensures rises { IfOk result (λ p. at < p.1) }
    ensures end { IfOk result (λ p. p.1 ≤ length text.now) }
    ensures within { IfErr result (λ fault. fault.at ≤ length text.now) }
    ensures read { IfOk result (λ p. (x : Cfg) × Reads text.now room at x p.1) }
    ensures only { (x : Cfg) (j : ℕ) → Reads text.now room at x j
        → IsOkAnd result (λ p. (p.0 ≡ says settings.now x) × (p.1 ≡ j)) }
{
    match head_of(text, at) {
        Head::Constant(value, end) => Ok((value, end)),
        Head::Name(start, end) => {
            let value = has_name(settings, &text[start..end]);
            Ok((value, end))
        }
        Head::Pair(start, end, opens, closes) => {
            let value = has_pair(settings, &text[start..end], &text[opens..closes]);
            Ok((value, closes + 1))
        }
        Head::Not(next) => {
            let inside = room_inside(room, at)?;
            let (value, end) = expression(text, settings, inside, next)?;
            let after = closed(text, end)?;
            Ok((!value, after))
        }
        Head::Group(every, next) => {
            let inside = room_inside(room, at)?;
            let (value, end) = each(text, settings, inside, every, next)?;
            Ok((value, end))
        }
        Head::Wrong(fault) => Err(fault),
    }
}

/// What the expressions of a group say together, and the place after its parenthesis.
#[cycle(reading)]
fn each(
    text: &[u8],
    settings: &[CfgSetting],
    room: usize,
    every: bool,
    at: usize,
) -> Result<(bool, usize), SpecFault>
    requires { at ≤ length text.now }
    ensures rises { IfOk result (λ p. at < p.1) }
    ensures end { IfOk result (λ p. p.1 ≤ length text.now) }
    ensures within { IfErr result (λ fault. fault.at ≤ length text.now) }
    ensures read { IfOk result (λ p. (x : Cfg) × ReadsEach text.now room every at x p.1) }
    ensures only { (x : Cfg) (j : ℕ) → ReadsEach text.now room every at x j
        → IsOkAnd result (λ p. (p.0 ≡ says settings.now x) × (p.1 ≡ j)) }
{
    let mut value = every;
    let mut place = at;
    loop {
        if let Some(end) = after(text, place, b')') {
            return Ok((value, end));
        }
        let (item, next) = expression(text, settings, room, place)?;
        value = joined(every, value, item);
        place = next_place(text, next)?;
    }
}
