//! The report of a selection, as text.

ghost use Rattle.std.specs.Prelude.{flat_map};
ghost use Rattle.list_facts.specs.Texts.{pair_of};
ghost use Rattle.list_facts.specs.Writers.{Writes};
ghost use Rattle.test_select_tests.specs.Selections.{line, report};

use crate::selection::Selection;
use list_facts::write_pieces;
use std::io::{self, Write};

/// Writes a line for each chosen test: the binary's id, a space, and the test's name. After a fault
/// of the writer what was written is a beginning of this.
pub fn write_report<W: Write>(selection: &Selection, writer: &mut W) -> io::Result<()>
    ensures writes { Writes (W.contents writer.old) (W.contents writer.new) result
        (report selection.now.chosen) }
{
    write_lines(selection.chosen(), writer)
}

fn write_lines<W: Write>(pairs: &[(String, String)], writer: &mut W) -> io::Result<()>
    ensures { Writes (W.contents writer.old) (W.contents writer.new) result
        (flat_map (λ p. line (pair_of p)) pairs.now) }
{
    for pair in pairs {
        write_line(pair, writer)?;
    }
    Ok(())
}

fn write_line<W: Write>(pair: &(String, String), writer: &mut W) -> io::Result<()>
    ensures { Writes (W.contents writer.old) (W.contents writer.new) result
        (line (pair_of pair.now)) }
{
    write_pieces(writer, &[pair.0.as_bytes(), b" ", pair.1.as_bytes(), b"\n"])
}
