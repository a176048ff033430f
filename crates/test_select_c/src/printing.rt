//! What a call prints, before it is written into the caller's rooms.

ghost use Rattle.std.specs.Prelude.{◌≡◌, ◌≤◌, ◌⊎◌, [], length, IfOk, IfSome, IsSome, ◌↔◌};
ghost use Rattle.test_select_c.specs.Calls.{LacksMemory, Prints, PrintsNothing};
ghost use Rattle.test_select_c.specs.CallParts.{EndsOver, IsTakenFrom};
ghost use Rattle.test_select_c.specs.Pieces.{IsCall};

use crate::MALFORMED;
use crate::pieces::{files_of, words_of};
use list_facts::write_bytes;
use std::alloc::{AllocError, Global};
use test_select::run;
use test_select_files::{ListedFile, ListedFiles};

/// A status, and what was printed to both streams.
#[derive(Debug, Drop)]
pub(crate) struct Printed {
    pub status: u32,
    pub out: Vec<u8>,
    pub err: Vec<u8>,
}

/// Words and files.
#[derive(Drop)]
struct Call<'a> {
    words: Vec<&'a str>,
    files: Vec<ListedFile<'a>>,
}

/// What a run on the words and files prints; where there was no memory to take them apart, that line.
pub(crate) fn printed_by(alloc: Global, words: &[u8], files: &[u8]) -> Printed
    ensures statuses { (result.status ≤ 2) ⊎ (result.status ≡ 4) }
    ensures called { IsCall words.now files.now → result.status ≤ 2 }
    ensures malformed { result.status ≡ 4 → IsCall words.now files.now → ⊥ }
    ensures prints { IsCall words.now files.now
        → Prints words.now files.now result.out.items result.err.items result.status }
    ensures refused { (IsCall words.now files.now → ⊥)
        → PrintsNothing result.out.items result.err.items result.status }
    ensures quiet { result.status ≡ 0 → length result.err.items ≡ 0 }
    ensures bad_words { result.status ≡ 2 → length result.out.items ≡ 0 }
{
    match call_of(alloc, words, files) {
        Ok(Some(call)) => printed_of(alloc, &call),
        Ok(None) => nothing_printed(alloc, MALFORMED),
        Err(_) => without_memory(alloc),
    }
}

fn call_of<'a>(
    alloc: Global,
    words: &'a [u8],
    files: &'a [u8],
) -> Result<Option<Call<'a>>, AllocError>
    ensures found { IfOk result (λ found. IsSome found ↔ IsCall words.entry.now files.entry.now) }
    ensures parts { IfOk result (λ found. IfSome found (IsTakenFrom words.entry.now
        files.entry.now)) }
{
    let Some(words) = words_of(alloc, words)? else {
        return Ok(None);
    };
    let Some(files) = files_of(alloc, files)? else {
        return Ok(None);
    };
    Ok(Some(Call { words, files }))
}

fn printed_of(alloc: Global, call: &Call<'_>) -> Printed
    ensures statuses { result.status ≤ 2 }
    ensures ends { EndsOver call.now result.out.items result.err.items result.status }
    ensures quiet { result.status ≡ 0 → length result.err.items ≡ 0 }
    ensures bad_words { result.status ≡ 2 → length result.out.items ≡ 0 }
{
    let mut files = ListedFiles { files: &call.files };
    let mut out = Vec::new(alloc);
    let mut err = Vec::new(alloc);
    let status = run(alloc, &call.words, &mut files, &mut out, &mut err);
    Printed {
        status: u32::from(status),
        out,
        err,
    }
}

fn nothing_printed(alloc: Global, status: u32) -> Printed
    ensures status { result.status ≡ status }
    ensures out { result.out.items ≡ [] }
    ensures err { result.err.items ≡ [] }
{
    Printed {
        status,
        out: Vec::new(alloc),
        err: Vec::new(alloc),
    }
}

fn without_memory(alloc: Global) -> Printed
    ensures { LacksMemory result.out.items result.err.items result.status }
{
    let mut printed = nothing_printed(alloc, 1);
    let _ = write_bytes(&mut printed.err, b"out of memory\n");
    printed
}
