//! What a test program prints for `--list --format terse`.

ghost use Rattle.std.specs.Prelude.{◌≡◌, ◌++◌, ◌<◌, ℕ, List, IfErr, IfNone, IfOk, IfSome, length, map, string_bytes};
ghost use Rattle.std.specs.Str.Lines.{lines};
ghost use Rattle.cargo_files.specs.Terse.{IsRefused, ListTests, Takes};

use std::alloc::{AllocError, Global};

/// Why what a test program printed is no list of tests.
#[derive(Clone, Copy, Debug, Drop, PartialEq, Eq)]
pub enum TerseFault {
    /// The line at this place, counted from 0, is no test's and no benchmark's.
    NoTest(usize),
    Memory,
}

impl From<AllocError> for TerseFault {
    ghost use Rattle.std.specs.Prelude.{◌≡◌};
    ghost use Rattle.cargo_files.specs.declared.terse.TerseFault.TheVariants.{Memory};

    ghost from_gives = { λ _ fault. fault ≡ Memory };

    fn from(_refused: AllocError) -> TerseFault {
        TerseFault::Memory
    }
}

/// The names of the tests that a test program printed when it was run with `--list --format terse`, in
/// its order. Ignored tests are among them; benchmarks are not.
pub fn terse_tests(alloc: Global, text: &str) -> Result<Vec<String>, TerseFault>
    ensures listed { IfOk result (λ v. ListTests (lines text.now) (map string_bytes v.items)) }
    ensures refused { IfErr result (IsRefused (lines text.now)) }
{
    let lines = lines_of(alloc, text)?;
    tests_among(alloc, &lines)
}

fn lines_of<'a>(alloc: Global, text: &'a str) -> Result<Vec<&'a str>, AllocError>
    ensures { IfOk result (λ v. map (λ line. line.now) v.items ≡ lines text.entry.now) }
{
    let mut lines = Vec::new(alloc);
    for line in text.lines() {
        lines.push(line)?;
    }
    Ok(lines)
}

fn tests_among(alloc: Global, lines: &[&str]) -> Result<Vec<String>, TerseFault>
    ensures listed { IfOk result (λ v. ListTests (map (λ line. line.now) lines.now)
        (map string_bytes v.items)) }
    ensures refused { IfErr result (IsRefused (map (λ line. line.now) lines.now)) }
{
    let mut tests = Vec::new(alloc);
    for (place, line) in lines.iter().enumerate() {
        if !take_line(alloc, line, &mut tests)? {
            return Err(TerseFault::NoTest(place));
        }
    }
    Ok(tests)
}

/// Adds the test that the line lists, if it lists one; `false` where the line is stray.
fn take_line(alloc: Global, line: &str, tests: &mut Vec<String>) -> Result<bool, AllocError>
    ensures { IfOk result (λ taken. Takes line.now taken (map string_bytes tests.old.items)
        (map string_bytes tests.new.items)) }
{
    if let Some(name) = before(line, ": test") {
        tests.push(String::from_str(alloc, name)?)?;
        return Ok(true);
    }
    Ok(before(line, ": benchmark").is_some() || line.is_empty())
}

/// What stands before the end of a line, if it ends so.
fn before<'a>(line: &'a str, end: &str) -> Option<&'a str>
    ensures some { IfSome result (λ front. line.entry.now ≡ front.now ++ end.now) }
    ensures none { IfNone result ((front : List ℕ) → line.entry.now ≡ front ++ end.now → ⊥) }
{
    line.strip_suffix(end)
}
