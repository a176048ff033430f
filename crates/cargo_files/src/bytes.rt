//! Runs of bytes that stand together: blanks, words, quoted values, triples and lines.

ghost use Rattle.std.specs.Prelude.{◌≡◌, ◌≤◌, ◌<◌, length, IfSome};
ghost use Rattle.cargo_files.specs.Bytes as spec;

/// Bytes that stand together.
#[derive(Clone, Copy, Debug, PartialEq, Eq)]
pub(crate) enum Run {
    Blanks,
    Word,
    Quoted,
    Triple,
    Line,
}

/// Whether a letter of ASCII, a digit or `_`.
fn is_word_byte(byte: u8) -> bool
    ensures { result ≡ spec.is_word_byte byte }
{
    matches!(byte, b'0'..=b'9' | b'A'..=b'Z' | b'_' | b'a'..=b'z')
}

/// Whether the byte is one of a run.
fn passes(run: Run, byte: u8) -> bool
    ensures { result ≡ spec.passes run byte }
{
    match run {
        Run::Blanks => byte == b' ',
        Run::Word => is_word_byte(byte),
        Run::Quoted => byte != b'"',
        Run::Triple => is_word_byte(byte) || byte == b'-' || byte == b'.',
        Run::Line => byte != b'\n',
    }
}

/// The place after the bytes of a run that begins at the place.
pub(crate) fn run_end(run: Run, text: &[u8], at: usize) -> usize
    requires { at ≤ length text.now }
    ensures value { result ≡ spec.run_end run text.now at }
    ensures rises { at ≤ result }
    ensures end { result ≤ length text.now }
{
    let mut place = at;
    while place < text.len() && passes(run, text[place]) {
        place += 1;
    }
    place
}

/// The place after the byte, if it stands behind the blanks at the place.
#[tactic(auto, unfolding(crate::specs::Bytes::after))]
pub(crate) fn after(text: &[u8], at: usize, byte: u8) -> Option<usize>
    requires { at ≤ length text.now }
    ensures value { result ≡ spec.after text.now at byte }
    ensures rises { IfSome result (λ e. at < e) }
    ensures end { IfSome result (λ e. e ≤ length text.now) }
{
    let place = run_end(Run::Blanks, text, at);
    if place < text.len() && text[place] == byte {
        Some(place + 1)
    } else {
        None
    }
}
