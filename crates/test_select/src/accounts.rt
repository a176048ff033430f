//! Accounts of what is on, printed as numbers or as lines for people.

ghost use Rattle.std.specs.Prelude.{◌≡◌, IfErr};
ghost use Rattle.clap.specs.Words.{found_of, rows_of};
ghost use Rattle.feature_account_making.specs.ReadBackLaws.{AreSizes};
ghost use Rattle.test_select_files.specs.Files.{SameAnswers};
ghost use Rattle.test_select_files.specs.Reading.{Asks};
ghost use Rattle.test_select.specs.AccountCommands.{EndsAccount};
ghost use Rattle.test_select.specs.Failures.{status_of};

use crate::failure::Failure;
use crate::readable::print_entries;
use clap::ArgMatches;
use std::alloc::Global;
use std::io::Write;
use test_select_features::{account_shared, write_account};
use test_select_files::{FileSource, feature_question, is_given, named_files};

/// Prints the account of what is on.
pub(crate) fn print_account<'a, O: Write>(
    alloc: Global,
    asked: &ArgMatches<'a>,
    files: &mut dyn FileSource,
    out: &mut O,
) -> Result<(), Failure<'a>>
    ensures status { IfErr result (λ f. status_of f ≡ 1) }
    ensures prints { Asks (answers files.old) (state files.old) (state files.new)
        (EndsAccount (rows_of (found_of asked.now)) result (O.contents out.old)
        (O.contents out.new)) }
    ensures same { SameAnswers (answers files.old) (answers files.new) }
{
    let question = feature_question(alloc, named_files(asked), files)?;
    let (record, choice, table) = (&question.record, &question.choice, &question.table);
    let account = account_shared(alloc, record, choice, table)?;
    let numbers = account.rules.as_slice();
    are_sizes(numbers);
    if is_given(asked, "readable") {
        return print_entries(alloc, &question, numbers, out);
    }
    write_account(alloc, numbers, out)?;
    Ok(())
}

/// Says of numbers of rules that each is one that a `usize` holds.
fn are_sizes(numbers: &[usize])
    ensures sizes { AreSizes numbers.now }
{}
