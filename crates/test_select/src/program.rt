//! The program, over any files and any two streams.

ghost use Rattle.std.specs.Prelude.{◌≡◌, ◌≤◌, IfErr, map};
ghost use Rattle.clap.specs.Words.{found_of, rows_of, subcommand_rows_of};
ghost use Rattle.test_select_files.specs.Files.{SameAnswers};
ghost use Rattle.test_select_files.specs.Reading.{Asks};
ghost use Rattle.test_select.specs.Failures.{status_of};
ghost use Rattle.test_select.specs.Running.{
  EndsAs,
  EndsProgram,
  EndsRun,
  EndsTask,
  EndsVerdict,
  Means,
  RefusesMistakes,
};

use crate::accounts::print_account;
use crate::binaries::print_binaries;
use crate::changes::print_changed;
use crate::command_line::refuse_bad_partition;
use crate::explanations::print_explanation;
use crate::failure::Failure;
use crate::order::print_order;
use crate::readable::{print_features, print_rules};
use crate::reasons::print_why;
use crate::selections::print_tests;
use crate::tasks::{Task, command, task_named};
use clap::ArgMatches;
use std::alloc::Global;
use std::convert::AsStr;
use std::io::Write;
use test_select_files::{FileSource, print_verdict, show, tell};

// What was read is let go of here too: to leave it to the system would save a thirtieth of a run, and be
// another function than the one that is promised and tested. A refused flush is `cannot write`, as is each
// fault of the writer, its want of memory included: what was written cannot be told.
/// Runs the program on a command line, whose first word is the program's name, and answers the
/// status that it ends with: 0 if all was done, 1 if something was refused or failed, and 2 for a
/// bad command line.
///
/// `test_select tests --record F --listings F [--choice F] [--table F] [--declared] [--plain]
/// [--partition count:M/N] [--format lines|json] [FILTER]...` reads and decodes the record, the choice, the
/// table and the listings, one by one and in this order, then selects, and writes the report to `out`, or
/// of N parts of its lines the part M, or their tests by binary as JSON. Without a choice the default features are on. Without a
/// table nothing is known of the platform, and what is unknown counts. Links that are on are followed,
/// with `--declared` all links. With `--plain` each available binary is asked for.
///
/// `test_select binaries --record F [--choice F] [--table F] [--declared] [--plain] [FILTER]...` reads the
/// same files but the listings, and writes the ids of the binaries that `tests` would ask for their tests.
///
/// `test_select changed --record F [--ignore GLOB].. [--paths F] [PATH]..` reads the record and the file of
/// paths, and writes a filter text for the tests of the packages to which the paths belong, and of all that
/// depends on them.
///
/// `test_select why --record F --listings F [--choice F] [--table F] [--declared] [-E FILTER].. ID [TEST]`
/// reads the same files, and writes a line that says whether and why that test of the binary ID is chosen
/// by the filters, or without TEST whether and why the binary is asked. Where the test is not chosen, or the
/// binary not asked, it has status 1 and no line on `err`.
///
/// `test_select account --record F [--choice F] [--table F]` writes the account of what is on, and
/// `test_select check --record F [--choice F] [--table F] --account F` what is to be said of an account,
/// or of an explanation where the file has a goal: a refused one has status 1 and no line on `err`.
/// `test_select explain --record F [--choice F] [--table F] PACKAGE [FEATURE]` writes the explanation of
/// the feature, which is named as in a choice and is without the word that of the package itself, or
/// `not on` with status 1 and no line on `err`. With `--readable` the entries of an account or of an
/// explanation are lines for people. `test_select order --record F [--choice F] [--table F]` writes the ids
/// of the packages that are on, dependencies first; with the same options `test_select features` writes a
/// line for each feature that is on, and `test_select rules` one for each rule.
///
/// Help and the version go to `out` too. `err` gets a line for each other cause
/// of a status other than 0; a fault of `err` changes nothing.
pub fn run<S: AsStr, O: Write, E: Write>(
    alloc: Global,
    words: &[S],
    files: &mut dyn FileSource,
    out: &mut O,
    err: &mut E,
) -> u8
    ensures statuses { result ≤ 2 }
    ensures quiet { result ≡ 0 → E.contents err.new ≡ E.contents err.old }
    ensures bad_words { result ≡ 2 → O.contents out.new ≡ O.contents out.old }
    ensures ends { EndsProgram (map S.text words.now) (answers files.old) (state files.old)
        (state files.new) (O.contents out.old) (O.contents out.new) (E.contents err.old)
        (E.contents err.new) result }
    ensures same { SameAnswers (answers files.old) (answers files.new) }
{
    match try_run(alloc, words, files, out) {
        Ok(()) => 0,
        Err(failure) => {
            if !failure.is_denial() {
                tell(alloc, &failure, err);
            }
            failure.status()
        }
    }
}

fn try_run<'a, S: AsStr, O: Write>(
    alloc: Global,
    words: &'a [S],
    files: &mut dyn FileSource,
    out: &mut O,
) -> Result<(), Failure<'a>>
    ensures bad_words { IfErr result (λ f. status_of f ≡ 2
        → O.contents out.new ≡ O.contents out.old) }
    ensures ends { Means (map S.text words.now) (λ below.
        Asks (answers files.old) (state files.old) (state files.new)
        (EndsAs below result (O.contents out.old) (O.contents out.new))) }
    ensures mistakes { RefusesMistakes (map S.text words.now) (state files.old) (state files.new)
        (O.contents out.old) (O.contents out.new) result }
    ensures same { SameAnswers (answers files.old) (answers files.new) }
{
    match command(alloc)?.try_get_matches_from(words) {
        Ok(matches) => {
            refuse_bad_partition(&matches)?;
            carry_out(alloc, &matches, files, out)
        }
        Err(shown) => Ok(show(shown, out)?),
    }
}

/// Does what the command line asks for, and has all of it written out.
fn carry_out<'a, O: Write>(
    alloc: Global,
    matches: &ArgMatches<'a>,
    files: &mut dyn FileSource,
    out: &mut O,
) -> Result<(), Failure<'a>>
    ensures status { IfErr result (λ f. status_of f ≡ 1) }
    ensures ends { Asks (answers files.old) (state files.old) (state files.new)
        (EndsRun (subcommand_rows_of matches.now) result (O.contents out.old) (O.contents out.new)) }
    ensures same { SameAnswers (answers files.old) (answers files.new) }
{
    print_asked(alloc, matches, files, out)?;
    out.flush()?;
    Ok(())
}

/// Prints what the command line asks for. `clap` takes no command line without a command.
fn print_asked<'a, O: Write>(
    alloc: Global,
    matches: &ArgMatches<'a>,
    files: &mut dyn FileSource,
    out: &mut O,
) -> Result<(), Failure<'a>>
    ensures status { IfErr result (λ f. status_of f ≡ 1) }
    ensures ends { Asks (answers files.old) (state files.old) (state files.new)
        (EndsRun (subcommand_rows_of matches.now) result (O.contents out.old) (O.contents out.new)) }
    ensures same { SameAnswers (answers files.old) (answers files.new) }
{
    let Some((name, asked)) = matches.subcommand() else {
        return Ok(());
    };
    match task_named(name) {
        Some(task) => print_task(alloc, task, asked, files, out),
        None => Ok(()),
    }
}

/// Prints what a task answers.
fn print_task<'a, O: Write>(
    alloc: Global,
    task: Task,
    asked: &ArgMatches<'a>,
    files: &mut dyn FileSource,
    out: &mut O,
) -> Result<(), Failure<'a>>
    ensures status { IfErr result (λ f. status_of f ≡ 1) }
    ensures ends { Asks (answers files.old) (state files.old) (state files.new)
        (EndsTask task (rows_of (found_of asked.now)) result (O.contents out.old)
        (O.contents out.new)) }
    ensures same { SameAnswers (answers files.old) (answers files.new) }
{
    match task {
        Task::Tests => print_tests(alloc, asked, files, out),
        Task::Binaries => print_binaries(alloc, asked, files, out),
        Task::Changed => print_changed(alloc, asked, files, out),
        Task::Why => print_why(alloc, asked, files, out),
        Task::Account => print_account(alloc, asked, files, out),
        Task::Check => print_check(alloc, asked, files, out),
        Task::Explain => print_explanation(alloc, asked, files, out),
        Task::Order => print_order(alloc, asked, files, out),
        Task::Features => print_features(alloc, asked, files, out),
        Task::Rules => print_rules(alloc, asked, files, out),
    }
}

/// Prints what is to be said of an account, as the checker of accounts does.
fn print_check<'a, O: Write>(
    alloc: Global,
    asked: &ArgMatches<'a>,
    files: &mut dyn FileSource,
    out: &mut O,
) -> Result<(), Failure<'a>>
    ensures status { IfErr result (λ f. status_of f ≡ 1) }
    ensures ends { Asks (answers files.old) (state files.old) (state files.new)
        (EndsVerdict (rows_of (found_of asked.now)) result (O.contents out.old)
        (O.contents out.new)) }
    ensures same { SameAnswers (answers files.old) (answers files.new) }
{
    Ok(print_verdict(alloc, asked, files, out)?)
}
