//! The program, over any files and any two streams.

ghost use Rattle.std.specs.Prelude.{◌≡◌, ◌≤◌, [], Err, IfErr, IfOk, IsErrAnd, map, Ok};
ghost use Rattle.clap.specs.Words.{app_of, fault_of, matches_of};
ghost use Rattle.test_select_files.specs.Failures.{failure_lines, is_denial, status_of};
ghost use Rattle.test_select_files.specs.Mistakes.{AreMistakes, IsBadLine};
ghost use Rattle.test_select_files.specs.Reading.{Asks};
ghost use Rattle.test_select_files.specs.Telling.{TellsUnless};
ghost use Rattle.test_select_files.specs.Verdicts.{EndsCheck};
ghost use Rattle.check_account.specs.Checker.{checker};

use crate::command_line::PROGRAM;
use clap::Command;
use std::alloc::{AllocError, Global};
use std::convert::AsStr;
use std::io::Write;
use test_select_files::{FileSource, RunFailure, print_verdict, show, tell};

/// Runs the program on a command line, whose first word is the program's name, and answers the status
/// that it ends with: 0 if the account is accepted, 1 if it or a file is refused, and 2 for a bad
/// command line.
///
/// `check_account --record F [--choice F] [--table F] --account F` says what `test_select check` says of
/// the same files.
pub(crate) fn run<S: AsStr, O: Write, E: Write>(
    alloc: Global,
    words: &[S],
    files: &mut dyn FileSource,
    out: &mut O,
    err: &mut E,
) -> u8
    ensures statuses { result ≤ 2 }
    ensures quiet { result ≡ 0 → E.contents err.new ≡ E.contents err.old }
    ensures bad_words { result ≡ 2 → O.contents out.new ≡ O.contents out.old }
    ensures done { result ≡ 0 → fault_of checker (map S.text words.now) ≡ []
        → Asks (answers files.old) (state files.old) (state files.new)
        (EndsCheck (matches_of checker (map S.text words.now)) (Ok tt) (O.contents out.old)
        (O.contents out.new)) }
    ensures failed { result ≡ 1 → fault_of checker (map S.text words.now) ≡ []
        → (f : RunFailure) × Asks (answers files.old) (state files.old) (state files.new)
        (EndsCheck (matches_of checker (map S.text words.now)) (Err f) (O.contents out.old)
        (O.contents out.new))
        × TellsUnless (is_denial f) (failure_lines f) (E.contents err.old) (E.contents err.new) }
    ensures accepted { fault_of checker (map S.text words.now) ≡ [] → result ≤ 1 }
    ensures mistaken { AreMistakes (fault_of checker (map S.text words.now))
        → (f : RunFailure) × IsBadLine f × (result ≡ status_of f)
        × TellsUnless (is_denial f) (failure_lines f) (E.contents err.old) (E.contents err.new)
        × (O.contents out.new ≡ O.contents out.old) × (state files.new ≡ state files.old) }
{
    match try_run(alloc, words, files, out) {
        Ok(()) => 0,
        Err(failure) => {
            if !failure.is_denial() {
                tell(alloc, &failure, err);
            }
            failure.status()
        }
    }
}

fn try_run<'a, S: AsStr, O: Write>(
    alloc: Global,
    words: &'a [S],
    files: &mut dyn FileSource,
    out: &mut O,
) -> Result<(), RunFailure<'a>>
    ensures bad_words { IfErr result (λ f. status_of f ≡ 2
        → O.contents out.new ≡ O.contents out.old) }
    ensures ends { fault_of checker (map S.text words.now) ≡ []
        → Asks (answers files.old) (state files.old) (state files.new)
        (EndsCheck (matches_of checker (map S.text words.now)) result (O.contents out.old)
        (O.contents out.new)) }
    ensures accepted { fault_of checker (map S.text words.now) ≡ []
        → IfErr result (λ f. status_of f ≡ 1) }
    ensures mistaken { AreMistakes (fault_of checker (map S.text words.now))
        → IsErrAnd result IsBadLine
        × (O.contents out.new ≡ O.contents out.old) × (state files.new ≡ state files.old) }
{
    match command(alloc)?.try_get_matches_from(words) {
        Ok(matches) => print_verdict(alloc, &matches, files, out),
        Err(shown) => show(shown, out),
    }
}

/// The program's command, as `clap` reads it.
fn command<'a>(alloc: Global) -> Result<Command<'a>, AllocError>
    ensures app { IfOk result (λ c. app_of c ≡ checker) }
{
    PROGRAM.command(alloc)
}
