//! The test binaries that a selection asks, printed before any of them is built.

ghost use Rattle.std.specs.Prelude.{◌≡◌, IfErr};
ghost use Rattle.clap.specs.Words.{found_of, rows_of};
ghost use Rattle.test_select_files.specs.Files.{SameAnswers};
ghost use Rattle.test_select_files.specs.Reading.{Asks};
ghost use Rattle.test_select.specs.Asking.{asks_in, filters_in, scope_in};
ghost use Rattle.test_select.specs.Failures.{status_of};
ghost use Rattle.test_select.specs.Runs.{ListsBinaries};
ghost use Rattle.test_select.specs.Selections.{EndsBinaries};

use crate::command_line::{asked_binaries, link_scope};
use crate::failure::Failure;
use crate::order::write_order;
use clap::ArgMatches;
use std::alloc::Global;
use std::io::Write;
use test_select_checks::SelectError;
use test_select_files::{FeatureQuestion, FileSource, feature_question, named_files, values_of};
use test_select_tests::binaries_to_ask_shared;

/// Prints a line for the id of each binary that `tests` would ask for its tests.
pub(crate) fn print_binaries<'a, O: Write>(
    alloc: Global,
    asked: &ArgMatches<'a>,
    files: &mut dyn FileSource,
    out: &mut O,
) -> Result<(), Failure<'a>>
    ensures status { IfErr result (λ f. status_of f ≡ 1) }
    ensures prints { Asks (answers files.old) (state files.old) (state files.new)
        (EndsBinaries (rows_of (found_of asked.now)) result (O.contents out.old)
        (O.contents out.new)) }
    ensures same { SameAnswers (answers files.old) (answers files.new) }
{
    let question = feature_question(alloc, named_files(asked), files)?;
    let ids = binaries_in(alloc, asked, &question)?;
    write_order(&ids, out)?;
    Ok(())
}

/// The ids of the binaries that a selection by the command line asks.
fn binaries_in(
    alloc: Global,
    asked: &ArgMatches<'_>,
    question: &FeatureQuestion,
) -> Result<Vec<String>, SelectError>
    ensures lists { let words = rows_of (found_of asked.now) in
        ListsBinaries question.now (scope_in words) (filters_in words) (asks_in words) result }
{
    let (record, choice, table) = (&question.record, &question.choice, &question.table);
    let (scope, asks) = (link_scope(asked), asked_binaries(asked));
    let texts = values_of(asked, "filter");
    binaries_to_ask_shared(alloc, record, choice, table, scope, texts, asks)
}
