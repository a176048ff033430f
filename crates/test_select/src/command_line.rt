//! What the words of a command line ask for.

ghost use Rattle.std.specs.Prelude.{◌≡◌, IfErr, codes, option_map};
ghost use Rattle.clap.specs.Words.{found_of, rows_of};
ghost use Rattle.test_select_files.specs.Words.{says};
ghost use Rattle.test_select_tests.specs.PartitionView.{partition_view};
ghost use Rattle.test_select.specs.Asking.{
  AsksForTestsOf,
  asks_in,
  RefusesNoPart,
  scope_in,
  words_below,
};
ghost use Rattle.test_select.specs.Failures.{status_of};

use crate::failure::Failure;
use clap::ArgMatches;
use test_select_files::is_given;
use test_select_tests::{AskedBinaries, LinkScope, Partition};

/// Which links the command line has followed.
pub(crate) fn link_scope(asked: &ArgMatches<'_>) -> LinkScope
    ensures scope { result ≡ scope_in (rows_of (found_of asked.now)) }
{
    if is_given(asked, "declared") {
        LinkScope::Declared
    } else {
        LinkScope::SwitchedOn
    }
}

/// Which available binaries the command line has asked for.
pub(crate) fn asked_binaries(asked: &ArgMatches<'_>) -> AskedBinaries
    ensures asks { result ≡ asks_in (rows_of (found_of asked.now)) }
{
    if is_given(asked, "plain") {
        AskedBinaries::Available
    } else {
        AskedBinaries::LetThrough
    }
}

/// Refuses a command line whose word for a part of the tests is none.
pub(crate) fn refuse_bad_partition<'a>(matches: &ArgMatches<'a>) -> Result<(), Failure<'a>>
    ensures status { IfErr result (λ f. status_of f ≡ 2) }
    ensures refuses { RefusesNoPart (words_below matches.now) result }
{
    let Some((_, asked)) = matches.subcommand() else {
        return Ok(());
    };
    match asked.get_str("partition") {
        Some(text) if Partition::from_text(text).is_none() => Err(Failure::BadPartition(text)),
        _ => Ok(()),
    }
}

/// The part of the chosen tests that the command line asks for, if it asks for one.
pub(crate) fn partition_in(asked: &ArgMatches<'_>) -> Option<Partition>
    ensures part { AsksForTestsOf (rows_of (found_of asked.now))
        (option_map partition_view result) }
{
    Partition::from_text(asked.get_str("partition")?)
}

/// Whether the command line wants JSON.
pub(crate) fn is_json(asked: &ArgMatches<'_>) -> bool
    ensures given { result
        ≡ says (codes "json") (codes "format") (rows_of (found_of asked.now)) }
{
    asked.get_str("format") == Some("json")
}
