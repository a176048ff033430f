//! Bytes and words at a place.

ghost use Rattle.std.specs.Prelude.{◌≡◌, ◌&&◌};
ghost use Rattle.nextest_filter_tokens.specs.Bytes as spec;

/// Whether the byte stands at the place.
pub fn has_byte(text: &str, at: usize, byte: u8) -> bool
    ensures { result ≡ spec.is_byte text.now at byte }
{
    let bytes = text.as_bytes();
    at < bytes.len() && bytes[at] == byte
}

/// Whether the word stands at the place.
pub fn has_word(text: &str, at: usize, word: &[u8]) -> bool
    ensures { result ≡ spec.has_word text.now at word.now }
{
    match word {
        [] => true,
        [first, rest @ ..] => has_byte(text, at, *first) && has_word(text, at + 1, rest),
    }
}

/// Whether the byte is a letter of ASCII, a digit or `_`.
fn is_word_byte(byte: u8) -> bool
    ensures { result ≡ spec.is_word_byte byte }
{
    matches!(byte, b'0'..=b'9' | b'A'..=b'Z' | b'_' | b'a'..=b'z')
}

/// Whether no word goes on at the place.
pub fn is_word_end(text: &str, at: usize) -> bool
    ensures { result ≡ spec.is_word_end text.now at }
{
    let bytes = text.as_bytes();
    !(at < bytes.len() && is_word_byte(bytes[at]))
}
