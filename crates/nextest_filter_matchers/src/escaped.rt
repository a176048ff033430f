//! Characters and texts with the escapes of filters.

ghost use Rattle.std.specs.Prelude.{false};
ghost use Rattle.std.specs.Fmt.{WritesOnOk};
ghost use Rattle.std.specs.Str.{chars};
ghost use Rattle.nextest_filter_matchers.specs.Printing.{printed_pattern, printed_text};

use std::fmt;

/// A character as it stands in a text of a filter.
#[derive(Clone, Copy)]
pub(crate) struct EscapedCharacter(pub(crate) char);

impl fmt::Display for EscapedCharacter {
    ghost use Rattle.std.specs.Prelude.{Some};
    ghost use Rattle.nextest_filter_matchers.specs.Printing.{printed_character};

    ghost output = { λ e. Some (printed_character e.0) };

    fn fmt<W: fmt::Write>(&self, f: &mut fmt::Formatter<W>) -> fmt::Result {
        match self.0 {
            '/' => f.write_str("\\/"),
            ')' => f.write_str("\\)"),
            ',' => f.write_str("\\,"),
            '\\' => f.write_str("\\\\"),
            '\n' => f.write_str("\\n"),
            '\r' => f.write_str("\\r"),
            '\t' => f.write_str("\\t"),
            c @ ' '..='~' => write!(f, "{c}"),
            c => write!(f, "\\u{{{:x}}}", c as u32),
        }
    }
}

/// A text as it stands in a filter.
#[derive(Clone, Copy)]
pub(crate) struct EscapedText<'t>(pub(crate) &'t str);

impl fmt::Display for EscapedText<'_> {
    ghost use Rattle.std.specs.Prelude.{Some};
    ghost use Rattle.nextest_filter_matchers.specs.Printing.{printed_text};

    ghost output = { λ e. Some (printed_text e.0.now) };

    fn fmt<W: fmt::Write>(&self, f: &mut fmt::Formatter<W>) -> fmt::Result {
        write_text(self.0, f)
    }
}

/// Writes a text as it stands in a filter.
fn write_text<W: fmt::Write>(text: &str, f: &mut fmt::Formatter<W>) -> fmt::Result
    ensures { WritesOnOk W.write_str_gives f.old result (printed_text text.now) f.new }
{
    for c in text.chars() {
        let character = EscapedCharacter(c);
        write!(f, "{character}")?;
    }
    Ok(())
}

/// A character as it stands in a pattern between slashes, after a backslash that escapes it or not.
#[derive(Clone, Copy)]
struct PatternCharacter {
    character: char,
    is_escaped: bool,
}

impl fmt::Display for PatternCharacter {
    ghost use Rattle.std.specs.Prelude.{Some};
    ghost use Rattle.nextest_filter_matchers.specs.Printing.{pattern_character};

    ghost output = { λ p. Some (pattern_character p.is_escaped p.character) };

    fn fmt<W: fmt::Write>(&self, f: &mut fmt::Formatter<W>) -> fmt::Result {
        let character = self.character;
        if character == '/' && !self.is_escaped {
            f.write_str("\\/")
        } else {
            write!(f, "{character}")
        }
    }
}

/// A pattern as it stands between slashes.
#[derive(Clone, Copy)]
pub(crate) struct EscapedPattern<'t>(pub(crate) &'t str);

impl fmt::Display for EscapedPattern<'_> {
    ghost use Rattle.std.specs.Prelude.{Some, false};
    ghost use Rattle.std.specs.Str.{chars};
    ghost use Rattle.nextest_filter_matchers.specs.Printing.{printed_pattern};

    ghost output = { λ e. Some (printed_pattern false (chars e.0.now)) };

    fn fmt<W: fmt::Write>(&self, f: &mut fmt::Formatter<W>) -> fmt::Result {
        write_pattern(self.0, f)
    }
}

/// Writes a pattern as it stands between slashes.
fn write_pattern<W: fmt::Write>(pattern: &str, f: &mut fmt::Formatter<W>) -> fmt::Result
    ensures { WritesOnOk W.write_str_gives f.old result (printed_pattern false (chars pattern.now))
        f.new }
{
    let mut is_escaped = false;
    for c in pattern.chars() {
        let character = PatternCharacter {
            character: c,
            is_escaped,
        };
        write!(f, "{character}")?;
        is_escaped = c == '\\' && !is_escaped;
    }
    Ok(())
}
