//! Whole texts written to a writer that may take a few bytes at a time.

ghost use Rattle.std.specs.Prelude.{flat_map};
ghost use Rattle.list_facts.specs.Writers.{Writes};

use std::io::{self, ErrorKind, Write};

/// Writes all the bytes. A writer that takes none of them is a fault of the kind `WriteZero`; after
/// a fault no further byte is written.
pub fn write_bytes<W: Write>(writer: &mut W, bytes: &[u8]) -> io::Result<()>
    ensures { Writes (W.contents writer.old) (W.contents writer.new) result bytes.now }
{
    let mut rest = bytes;
    while !rest.is_empty() {
        let count = writer.write(rest)?;
        if count == 0 {
            return Err(io::Error::from(ErrorKind::WriteZero));
        }
        let (_, left) = rest.split_at(count);
        rest = left;
    }
    Ok(())
}

/// Writes all the bytes of each piece in order, up to the first fault.
pub fn write_pieces<W: Write>(writer: &mut W, pieces: &[&[u8]]) -> io::Result<()>
    ensures { Writes (W.contents writer.old) (W.contents writer.new) result
        (flat_map (λ p. p.now) pieces.now) }
{
    for piece in pieces {
        write_bytes(writer, *piece)?;
    }
    Ok(())
}
