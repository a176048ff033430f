//! Blanks between tokens.

ghost use Rattle.std.specs.Prelude.{◌≡◌, ◌+◌, ◌≤◌, length};
ghost use Rattle.std.specs.Str.{IsCharBoundary};
ghost use Rattle.nextest_filter_tokens.specs.Bytes.{blank_length, skip};

use crate::bytes::has_byte;

/// The place after the blanks: spaces, line feeds, and carriage returns with their line feeds.
pub fn skip_blanks(text: &str, at: usize) -> usize
    requires { at ≤ length text.now }
    ensures value { result ≡ skip text.now at }
    ensures rises { at ≤ result }
    ensures end { result ≤ length text.now }
    ensures boundary { IsCharBoundary text.now at → IsCharBoundary text.now result }
{
    let mut place = at;
    let mut left = text.len();
    while left > 0 {
        let length = blank_length_at(text, place);
        if length == 0 {
            return place;
        }
        place += length;
        left -= 1;
    }
    place
}

/// The length of the blank at the place, and 0 where there is none.
#[tactic(auto, unfolding(crate::specs::Bytes::blank_length))]
fn blank_length_at(text: &str, at: usize) -> usize
    requires { at ≤ length text.now }
    ensures value { result ≡ blank_length text.now at }
    ensures end { at + result ≤ length text.now }
    ensures boundary { IsCharBoundary text.now at → IsCharBoundary text.now (at + result) }
{
    if has_byte(text, at, b' ') || has_byte(text, at, b'\n') {
        1
    } else if has_byte(text, at, b'\r') && has_byte(text, at + 1, b'\n') {
        2
    } else {
        0
    }
}
