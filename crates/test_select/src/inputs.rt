//! The files of a selection, read one by one.

ghost use Rattle.std.specs.Prelude.{◌≡◌, IfErr};
ghost use Rattle.clap.specs.Words.{found_of, rows_of};
ghost use Rattle.test_select_files.specs.Failures.{status_of};
ghost use Rattle.test_select_files.specs.Files.{SameAnswers};
ghost use Rattle.test_select_files.specs.Reading.{Asks};
ghost use Rattle.test_select.specs.Selections.{ReadsListings, ReadsTests};

use clap::ArgMatches;
use nextest_binaries::Listing;
use record_files::read_listings;
use std::alloc::Global;
use std::collections::BTreeMap;
use test_select_files::{
    FeatureQuestion, FileSource, RunFailure, accepted, bytes_in, feature_question, named_files,
    required,
};

/// The files of a selection: what it is asked, and the listings by the ids of their binaries.
pub(crate) type TestsInputs = (FeatureQuestion, BTreeMap<String, Listing>);

/// Reads and decodes the files of the question, and then the listings. The first file that fails ends
/// the reading.
pub(crate) fn tests_inputs<'a>(
    alloc: Global,
    asked: &ArgMatches<'a>,
    files: &mut dyn FileSource,
) -> Result<TestsInputs, RunFailure<'a>>
    ensures status { IfErr result (λ f. status_of f ≡ 1) }
    ensures reads { Asks (answers files.old) (state files.old) (state files.new)
        (ReadsTests (rows_of (found_of asked.now)) result) }
    ensures same { SameAnswers (answers files.old) (answers files.new) }
{
    let question = feature_question(alloc, named_files(asked), files)?;
    let listings = listings_in(alloc, required(asked, "listings"), files)?;
    Ok((question, listings))
}

fn listings_in<'a>(
    alloc: Global,
    name: &'a str,
    files: &mut dyn FileSource,
) -> Result<BTreeMap<String, Listing>, RunFailure<'a>>
    ensures status { IfErr result (λ f. status_of f ≡ 1) }
    ensures reads { Asks (answers files.old) (state files.old) (state files.new)
        (ReadsListings name.now result) }
    ensures same { SameAnswers (answers files.old) (answers files.new) }
{
    let bytes = bytes_in(alloc, name, files)?;
    accepted(name, read_listings(alloc, &bytes))
}
