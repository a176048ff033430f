//! Patterns of regular expressions, up to the slash that ends them.

ghost use Rattle.std.specs.Prelude.{◌≡◌, ◌≤◌, ◌<◌, ◌+◌, ℕ, List, true, false, IfOk, IfSome, IfNone, length, string_bytes};
ghost use Rattle.std.specs.Str.{IsCharBoundary};
ghost use Rattle.nextest_filter_tokens.specs.Bytes.{is_byte};
ghost use Rattle.nextest_filter_tokens.specs.Patterns as spec;

use crate::bytes::has_byte;
use std::alloc::{AllocError, Global};

/// Whether a byte of a pattern stands at the place, for itself.
fn is_pattern_byte(text: &str, at: usize) -> bool
    ensures { result ≡ spec.is_pattern_byte text.now at }
{
    at < text.len()
        && !has_byte(text, at, b'/')
        && !(has_byte(text, at, b'\\') && has_byte(text, at + 1, b'/'))
}

/// The place where the bytes of a pattern that stand for themselves end.
fn run_end(text: &str, at: usize) -> usize
    requires { at ≤ length text.now }
    ensures rises { at ≤ result }
    ensures end { result ≤ length text.now }
    ensures plain { (k : ℕ) → at ≤ k → k < result → spec.is_pattern_byte text.now k ≡ true }
    ensures stops { spec.is_pattern_byte text.now result ≡ false }
    ensures boundary { IsCharBoundary text.now at → IsCharBoundary text.now result }
{
    let mut place = at;
    while is_pattern_byte(text, place) {
        place += 1;
    }
    place
}

/// The pattern from a place after a slash on, and the place of the slash that ends it, if one does.
pub fn pattern_from(
    alloc: Global,
    text: &str,
    at: usize,
) -> Result<Option<(String, usize)>, AllocError>
    requires at { at ≤ length text.now }
    requires boundary { IsCharBoundary text.now at }
    ensures read { IfOk result (λ r. IfSome r
        (λ p. spec.ReadsPattern text.now at (string_bytes p.0) p.1)) }
    ensures rises { IfOk result (λ r. IfSome r (λ p. at ≤ p.1)) }
    ensures within { IfOk result (λ r. IfSome r (λ p. p.1 < length text.now)) }
    ensures unread { IfOk result (λ r. IfNone r
        ((xs : List ℕ) (j : ℕ) → spec.ReadsPattern text.now at xs j → ⊥)) }
{
    let mut pattern = String::new(alloc);
    let mut place = at;
    loop {
        let end = run_end(text, place);
        pattern.push_str(&text[place..end])?;
        if has_byte(text, end, b'/') {
            return Ok(Some((pattern, end)));
        }
        if end >= text.len() {
            return Ok(None);
        }
        pattern.push('/')?;
        place = end + 2;
    }
}
