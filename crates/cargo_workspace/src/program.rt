//! The program, over any files and any two streams.

ghost use Rattle.std.specs.Prelude.{◌≡◌, ◌≢◌, ◌≤◌, ◌++◌, [], Err, IfErr, IsErrAnd, codes, map};
ghost use Rattle.clap.specs.Words.{fault_of, kind_of, subcommand_of, subcommand_rows_of};
ghost use Rattle.clap.specs.declared.error.ErrorKind.TheVariants.{DisplayHelp, DisplayVersion, OutOfMemory};
ghost use Rattle.list_facts.specs.Writers.{Writes};
ghost use Rattle.test_select_files.specs.Mistakes.{AreMistakes};
ghost use Rattle.cargo_workspace.specs.Failures.{IsBadLine, status_of};
ghost use Rattle.cargo_workspace.specs.Files.{Asks};
ghost use Rattle.cargo_workspace.specs.Maker.{maker};
ghost use Rattle.cargo_workspace.specs.Running.{EndsProgram, EndsRun};
ghost use Rattle.cargo_workspace.specs.declared.failure.Failure.TheVariants.{CannotWrite, Memory};

use crate::command_line::command;
use crate::conversions::text_made;
use crate::failure::Failure;
use crate::sources::Sources;
use clap::{ArgMatches, Error};
use list_facts::write_pieces;
use std::alloc::Global;
use std::convert::AsStr;
use std::io::Write;
use test_select_files::tell;

/// Runs the program on a command line, whose first word is the program's name, and answers the status
/// that it ends with: 0 if what is asked for is printed, 1 if a file is refused or something fails, and 2
/// for a bad command line.
///
/// `cargo_workspace record [-p NAME].. [--workspace] FILE` prints the record of what `cargo metadata`
/// printed. `cargo_workspace table --triple T --record F FILE` reads what `rustc --print cfg` printed and
/// then the record, and prints the record's table. `cargo_workspace choice --record F [--features W]..
/// [--no-default-features] [--all-features]` prints the choice that these words mean.
/// `cargo_workspace listings --record F [--built] [--nextest] FILE` reads the record and then the list of
/// each of its test binaries, from the files of a folder or from what nextest printed, and prints the
/// listings.
///
/// Help and the version go to `out` too. `err` gets a line for each cause of a status other than 0; a fault
/// of `err` changes nothing.
pub(crate) fn run<S: AsStr, O: Write, E: Write>(
    alloc: Global,
    words: &[S],
    files: &mut dyn Sources,
    out: &mut O,
    err: &mut E,
) -> u8
    ensures statuses { result ≤ 2 }
    ensures quiet { result ≡ 0 → E.contents err.new ≡ E.contents err.old }
    ensures bad_words { result ≡ 2 → O.contents out.new ≡ O.contents out.old }
    ensures ends { EndsProgram (map S.text words.now) (answers files.old) (state files.old)
        (state files.new) (O.contents out.old) (O.contents out.new) (E.contents err.old)
        (E.contents err.new) result }
{
    match try_run(alloc, words, files, out) {
        Ok(()) => 0,
        Err(failure) => {
            tell(alloc, &failure, err);
            failure.status()
        }
    }
}

fn try_run<'a, S: AsStr, O: Write>(
    alloc: Global,
    words: &'a [S],
    files: &mut dyn Sources,
    out: &mut O,
) -> Result<(), Failure<'a>>
    ensures bad_words { IfErr result (λ f. status_of f ≡ 2
        → O.contents out.new ≡ O.contents out.old) }
    ensures ends { fault_of maker (map S.text words.now) ≡ []
        → Asks (answers files.old) (state files.old) (state files.new)
        (EndsRun (subcommand_of maker (map S.text words.now)) result (O.contents out.old)
        (O.contents out.new)) }
    ensures mistakes { AreMistakes (fault_of maker (map S.text words.now))
        → IsErrAnd result IsBadLine
        × (O.contents out.new ≡ O.contents out.old) × (state files.new ≡ state files.old) }
{
    match command(alloc)?.try_get_matches_from(words) {
        Ok(matches) => print_made(alloc, &matches, files, out),
        Err(shown) => show(shown, out),
    }
}

/// Shows what was asked for in place of a conversion: the help, or the version. A command line that is
/// refused is not shown here.
fn show<'a, O: Write>(shown: Error, out: &mut O) -> Result<(), Failure<'a>>
    ensures bad_words { IfErr result (λ f. status_of f ≡ 2
        → O.contents out.new ≡ O.contents out.old) }
    ensures memory { kind_of shown ≡ OutOfMemory → (result ≡ Err Memory)
        × (O.contents out.new ≡ O.contents out.old) }
    ensures refused { kind_of shown ≢ DisplayHelp → kind_of shown ≢ DisplayVersion
        → IsErrAnd result IsBadLine × (O.contents out.new ≡ O.contents out.old) }
{
    if shown.use_stderr() {
        return Err(Failure::from(shown));
    }
    write!(out, "{shown}")?;
    out.flush()?;
    Ok(())
}

/// Makes what the command line asks for, and prints it.
fn print_made<'a, O: Write>(
    alloc: Global,
    matches: &ArgMatches<'a>,
    files: &mut dyn Sources,
    out: &mut O,
) -> Result<(), Failure<'a>>
    ensures status { IfErr result (λ f. status_of f ≡ 1) }
    ensures ends { Asks (answers files.old) (state files.old) (state files.new)
        (EndsRun (subcommand_rows_of matches.now) result (O.contents out.old)
        (O.contents out.new)) }
{
    let text = text_made(alloc, matches, files)?;
    print_text(text.as_str(), out)
}

/// Prints the text with a line feed, and has all of it written out.
fn print_text<'a, O: Write>(text: &str, out: &mut O) -> Result<(), Failure<'a>>
    ensures fails { IfErr result (λ f. f ≡ CannotWrite) }
    ensures writes { Writes (O.contents out.old) (O.contents out.new) result
        (text.now ++ codes "\n") }
{
    write_pieces(out, &[text.as_bytes(), b"\n"])?;
    out.flush()?;
    Ok(())
}
