//! The tests that run, printed.

ghost use Rattle.std.specs.Prelude.{◌≡◌, ℕ, IfErr, IfOk, Option, true};
ghost use Rattle.clap.specs.Words.{found_of, rows_of};
ghost use Rattle.test_select_files.specs.Files.{SameAnswers};
ghost use Rattle.test_select_files.specs.Reading.{Asks};
ghost use Rattle.test_select.specs.Asking.{AsksForTestsOf};
ghost use Rattle.test_select.specs.Failures.{status_of};
ghost use Rattle.test_select.specs.Selections.{
  EndsTests,
  PrintsShown,
  Selects,
  tests_of,
};

use crate::command_line::{asked_binaries, is_json, link_scope, partition_in};
use crate::failure::Failure;
use crate::inputs::tests_inputs;
use clap::ArgMatches;
use list_facts::write_bytes;
use nextest_binaries::Listing;
use record_writing::listings_line;
use std::alloc::{AllocError, Global};
use std::collections::BTreeMap;
use std::io::Write;
use test_select_checks::SelectError;
use test_select_files::{FeatureQuestion, FileSource, values_of};
use test_select_tests::{Selection, by_binary, select_listed, write_report};

/// Prints the tests that run, or those of the part that is asked for, as lines or as JSON.
pub(crate) fn print_tests<'a, O: Write>(
    alloc: Global,
    asked: &ArgMatches<'a>,
    files: &mut dyn FileSource,
    out: &mut O,
) -> Result<(), Failure<'a>>
    ensures status { IfErr result (λ f. status_of f ≡ 1) }
    ensures prints { Asks (answers files.old) (state files.old) (state files.new)
        (EndsTests (rows_of (found_of asked.now)) result (O.contents out.old)
        (O.contents out.new)) }
    ensures same { SameAnswers (answers files.old) (answers files.new) }
{
    let (question, listings) = tests_inputs(alloc, asked, files)?;
    let selection = selection_in(alloc, asked, &question, listings)?;
    let chosen = part_in(alloc, asked, selection)?;
    write_selection(alloc, chosen, is_json(asked), out)
}

/// The selection that the command line asks for, from the listings.
fn selection_in(
    alloc: Global,
    asked: &ArgMatches<'_>,
    question: &FeatureQuestion,
    listings: BTreeMap<String, Listing>,
) -> Result<Selection, SelectError>
    ensures selects { Selects (rows_of (found_of asked.now)) question.now listings result }
{
    let (record, choice, table) = (&question.record, &question.choice, &question.table);
    let (scope, asks) = (link_scope(asked), asked_binaries(asked));
    let texts = values_of(asked, "filter");
    select_listed(alloc, record, choice, table, scope, texts, asks, listings)
}

/// The selection with the chosen tests of the part that the command line asks for, if it asks for one.
fn part_in(
    alloc: Global,
    asked: &ArgMatches<'_>,
    selection: Selection,
) -> Result<Selection, AllocError>
    ensures part { IfOk result (λ s. (part : Option (ℕ × ℕ))
        × AsksForTestsOf (rows_of (found_of asked.now)) part
        × (s.chosen ≡ tests_of part selection.chosen)) }
{
    match partition_in(asked) {
        Some(partition) => selection.in_part(alloc, partition),
        None => Ok(selection),
    }
}

/// Writes the chosen tests as lines, or as one object of JSON and a line feed.
fn write_selection<'a, O: Write>(
    alloc: Global,
    selection: Selection,
    is_json: bool,
    out: &mut O,
) -> Result<(), Failure<'a>>
    ensures status { IfErr result (λ f. status_of f ≡ 1) }
    ensures prints { PrintsShown is_json selection.chosen result (O.contents out.old)
        (O.contents out.new) }
{
    if is_json {
        return write_listings(alloc, selection, out);
    }
    write_report(&selection, out)?;
    Ok(())
}

fn write_listings<'a, O: Write>(
    alloc: Global,
    selection: Selection,
    out: &mut O,
) -> Result<(), Failure<'a>>
    ensures status { IfErr result (λ f. status_of f ≡ 1) }
    ensures prints { PrintsShown true selection.chosen result (O.contents out.old)
        (O.contents out.new) }
{
    let groups = by_binary(alloc, selection)?;
    let line = listings_line(alloc, &groups)?;
    write_bytes(out, line.as_bytes())?;
    Ok(())
}
