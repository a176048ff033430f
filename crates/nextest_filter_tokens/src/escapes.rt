//! Escapes in a text.

ghost use Rattle.std.specs.Prelude.{◌≡◌, ◌≤◌, ◌<◌, IfSome, if◌then◌else◌};
ghost use Rattle.nextest_filter_tokens.specs.Bytes.{byte};
ghost use Rattle.nextest_filter_tokens.specs.Escapes.{EndsWithin, closed_at, digit_value, digits_from, escape_at, is_digit_at, named_escape, signed_escape};

use crate::bytes::has_byte;

/// The character that an escape means, and the place after it.
#[derive(Clone, Copy, Debug, PartialEq, Eq)]
pub enum Escape {
    Means(char, usize),
    Invalid,
}

/// The value of a hexadecimal digit; 16 of any other byte.
fn digit_value_of(byte: u8) -> u8
    ensures value { result ≡ digit_value byte }
    ensures small { result ≤ 16 }
{
    match byte {
        b'0'..=b'9' => byte - b'0',
        b'a'..=b'f' => byte - b'a' + 10,
        b'A'..=b'F' => byte - b'A' + 10,
        _ => 16,
    }
}

/// The escape that ends in a brace at the place, if it means a character.
fn closed(text: &str, has_digits: bool, code: u32, at: usize) -> Escape
    ensures value { result ≡ closed_at text.now has_digits code at }
    ensures end { EndsWithin text.now at result }
{
    if has_digits && has_byte(text, at, b'}') {
        if let Some(c) = char::from_u32(code) {
            return Escape::Means(c, at + 1);
        }
    }
    Escape::Invalid
}

/// The value of the digit at the place.
fn digit_at(text: &str, at: usize) -> Option<u8>
    ensures value { result ≡ (if is_digit_at text.now at then Some (digit_value (byte text.now at))
        else None) }
    ensures small { IfSome result (λ v. v < 16) }
{
    let bytes = text.as_bytes();
    if at >= bytes.len() {
        return None;
    }
    let value = digit_value_of(bytes[at]);
    if value < 16 { Some(value) } else { None }
}

/// Digits up to a brace, at most so many more, after the code of those before.
fn digits_after(text: &str, left: usize, has_digits: bool, code: u32, at: usize) -> Escape
    ensures value { result ≡ digits_from text.now left has_digits code at }
    ensures end { EndsWithin text.now at result }
{
    if left == 0 {
        return closed(text, has_digits, code, at);
    }
    let Some(value) = digit_at(text, at) else {
        return closed(text, has_digits, code, at);
    };
    if code > 0x10_ffff {
        return Escape::Invalid;
    }
    digits_after(text, left - 1, true, code * 16 + u32::from(value), at + 1)
}

/// What a sign means after a backslash.
fn signed(byte: u8) -> Option<char>
    ensures value { result ≡ signed_escape byte }
    ensures ascii { IfSome result (λ _. byte < 128) }
{
    match byte {
        b'\\' => Some('\\'),
        b'/' => Some('/'),
        b')' => Some(')'),
        b',' => Some(','),
        _ => None,
    }
}

/// What a letter or a sign means after a backslash.
fn named(byte: u8) -> Option<char>
    ensures value { result ≡ named_escape byte }
    ensures ascii { IfSome result (λ _. byte < 128) }
{
    match byte {
        b'n' => Some('\n'),
        b'r' => Some('\r'),
        b't' => Some('\t'),
        b'b' => Some('\u{8}'),
        b'f' => Some('\u{c}'),
        _ => signed(byte),
    }
}

/// The escape after a backslash.
pub fn escape_after(text: &str, at: usize) -> Escape
    ensures value { result ≡ escape_at text.now at }
    ensures end { EndsWithin text.now at result }
{
    if has_byte(text, at, b'u') {
        if has_byte(text, at + 1, b'{') {
            return digits_after(text, 6, false, 0, at + 2);
        }
        return Escape::Invalid;
    }
    let bytes = text.as_bytes();
    if at >= bytes.len() {
        return Escape::Invalid;
    }
    match named(bytes[at]) {
        Some(c) => Escape::Means(c, at + 1),
        None => Escape::Invalid,
    }
}
