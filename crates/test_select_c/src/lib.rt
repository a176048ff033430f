//! The library for programs in C and Rust: a run of `test_select` over words and files that the caller
//! lends, with what it prints written into rooms of the caller's.
//!
//! Begin with `test_select_run`, and with `specs/Pieces.antt` for how words and files stand as bytes. What
//! the export is called, its arguments, its struct and its statuses are public; all else is private.
#![tactic(auto)]

ghost use Rattle.std.specs.Prelude.{◌≡◌, ◌↔◌, ◌≤◌, ◌<◌, ◌⊎◌, length};
ghost use Rattle.test_select_c.specs.Calls.{Answers, Refuses};
ghost use Rattle.test_select_c.specs.Pieces.{IsCall};
ghost use Rattle.test_select_c.specs.Rooms.{Holds};

mod pieces;
mod printing;
mod rooms;

use crate::printing::printed_by;
use crate::rooms::fill;
use std::alloc::Global;

/// How a call ended: its status, and how many bytes it printed to standard output and to standard error.
#[repr(C)]
#[derive(Clone, Copy, Debug)]
pub struct Outcome {
    pub status: u32,
    pub out_length: usize,
    pub err_length: usize,
}

/// The status where one of the rooms is too small: it holds what fits, and the lengths say what is needed.
pub const TOO_SMALL: u32 = 3;

/// The status where the words or the files are no such lists: nothing was run.
pub const MALFORMED: u32 = 4;

/// Runs `test_select` on the words, the program's name first, each ended by a zero byte. The files are each
/// its name, a zero byte, its length in eight bytes, the lowest first, and what it holds; a name that is not
/// among them cannot be read. Standard output and standard error go into the two rooms.
///
/// The status is that of the run, from 0 to 2, or `TOO_SMALL` or `MALFORMED`. Behind what was printed a room
/// stays as it was.
#[unsafe(no_mangle)]
pub extern "C" fn test_select_run(
    alloc: Global,
    words: &[u8],
    files: &[u8],
    out: &mut [u8],
    err: &mut [u8],
) -> Outcome
    ensures statuses { result.status ≤ 4 }
    ensures called { IsCall words.now files.now → result.status ≤ 3 }
    ensures malformed { result.status ≡ 4 → IsCall words.now files.now → ⊥ }
    ensures ran { IsCall words.now files.now → Answers words.now files.now result out.old out.new
        err.old err.new }
    ensures refused { (IsCall words.now files.now → ⊥)
        → Refuses result out.old out.new err.old err.new }
    ensures too_small { (result.status ≡ 3)
        ↔ ((length out.old < result.out_length) ⊎ (length err.old < result.err_length)) }
    ensures out_held { Holds result.out_length out.old out.new }
    ensures err_held { Holds result.err_length err.old err.new }
    ensures quiet { result.status ≡ 0 → result.err_length ≡ 0 }
    ensures bad_words { result.status ≡ 2 → result.out_length ≡ 0 }
{
    let printed = printed_by(alloc, words, files);
    let fits = printed.out.len() <= out.len() && printed.err.len() <= err.len();
    fill(out, &printed.out);
    fill(err, &printed.err);
    Outcome {
        status: if fits { printed.status } else { TOO_SMALL },
        out_length: printed.out.len(),
        err_length: printed.err.len(),
    }
}
