//! What standard error gets of a failure.

ghost use Rattle.test_select_files.specs.Telling.{Tells};

use list_facts::write_bytes;
use std::alloc::Global;
use std::fmt::Display;
use std::io::Write;

/// Writes the lines of a failure; if there is no memory for them, `out of memory` in their place. A fault of
/// the writer changes nothing.
pub fn tell<F: Display, E: Write>(alloc: Global, failure: &F, err: &mut E)
    ensures told { Tells (F.output failure.now) (E.contents err.old) (E.contents err.new) }
{
    let lines = format!(in alloc; "{failure}");
    let bytes = match &lines {
        Ok(lines) => lines.as_bytes(),
        Err(_) => b"out of memory\n",
    };
    let _ = write_bytes(err, bytes);
}
