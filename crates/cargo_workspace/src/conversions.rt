//! The conversions, each from the bytes of its files to the text of the one that is made.

ghost use Rattle.std.specs.Prelude.{◌≡◌, IfErr, map, string_bytes};
ghost use Rattle.clap.specs.Words.{found_of, rows_of, subcommand_rows_of};
ghost use Rattle.cargo_files.specs.Added.{listing};
ghost use Rattle.test_select_files.specs.Files.{SameAnswers};
ghost use Rattle.cargo_workspace.specs.Conversions.{
  MakesChoice,
  MakesListings,
  MakesRecord,
  MakesTable,
  MakesTableFor,
  ReadsIds,
  ReadsListsBy,
  ReadsSettings,
};
ghost use Rattle.cargo_workspace.specs.Failures.{status_of};
ghost use Rattle.cargo_workspace.specs.Files.{Asks};
ghost use Rattle.cargo_workspace.specs.Reading.{shown};
ghost use Rattle.cargo_workspace.specs.Running.{conversion_named, Makes, MakesAsked};

use crate::asking::{feature_words, is_given, requested_members};
use crate::failure::Failure;
use crate::lists::{listings_in_folder, listings_of_nextest};
use crate::reading::{accepted, bytes_in};
use crate::sources::Sources;
use cargo_files::{
    CfgSetting, Listings, binary_ids, choice_file, listings_file, record_file, settings_file,
    table_file,
};
use clap::ArgMatches;
use std::alloc::Global;
use test_select_files::required;

/// What the program makes.
#[derive(Clone, Copy)]
pub(crate) enum Conversion {
    Record,
    Table,
    Choice,
    Listings,
}

/// The text that the command line asks for. `clap` takes no command line without a command.
pub(crate) fn text_made<'a>(
    alloc: Global,
    matches: &ArgMatches<'a>,
    files: &mut dyn Sources,
) -> Result<String, Failure<'a>>
    ensures status { IfErr result (λ f. status_of f ≡ 1) }
    ensures makes { Asks (answers files.old) (state files.old) (state files.new)
        (MakesAsked (subcommand_rows_of matches.now) (shown string_bytes result)) }
{
    let Some((name, asked)) = matches.subcommand() else {
        return Ok(String::new(alloc));
    };
    match conversion_named(name) {
        Some(conversion) => converted(alloc, conversion, asked, files),
        None => Ok(String::new(alloc)),
    }
}

/// The conversion with this name, if there is one.
fn conversion_named(name: &str) -> Option<Conversion>
    ensures conversion { result ≡ conversion_named name.now }
{
    match name {
        "record" => Some(Conversion::Record),
        "table" => Some(Conversion::Table),
        "choice" => Some(Conversion::Choice),
        "listings" => Some(Conversion::Listings),
        _ => None,
    }
}

/// The text that a conversion makes.
fn converted<'a>(
    alloc: Global,
    conversion: Conversion,
    asked: &ArgMatches<'a>,
    files: &mut dyn Sources,
) -> Result<String, Failure<'a>>
    ensures status { IfErr result (λ f. status_of f ≡ 1) }
    ensures makes { Asks (answers files.old) (state files.old) (state files.new)
        (Makes conversion (rows_of (found_of asked.now)) (shown string_bytes result)) }
{
    match conversion {
        Conversion::Record => record_made(alloc, asked, files),
        Conversion::Table => table_made(alloc, asked, files),
        Conversion::Choice => choice_made(alloc, asked, files),
        Conversion::Listings => listings_made(alloc, asked, files),
    }
}

/// The record of what `cargo metadata` printed.
fn record_made<'a>(
    alloc: Global,
    asked: &ArgMatches<'a>,
    files: &mut dyn Sources,
) -> Result<String, Failure<'a>>
    ensures status { IfErr result (λ f. status_of f ≡ 1) }
    ensures makes { Asks (answers files.old) (state files.old) (state files.new)
        (MakesRecord (rows_of (found_of asked.now)) (shown string_bytes result)) }
    ensures same { SameAnswers (answers files.old) (answers files.new) }
{
    let wanted = requested_members(asked);
    let name = required(asked, "metadata");
    let bytes = bytes_in(alloc, name, files)?;
    accepted(name, record_file(alloc, &bytes, wanted))
}

/// The table of a record. The settings of the platform are read first.
fn table_made<'a>(
    alloc: Global,
    asked: &ArgMatches<'a>,
    files: &mut dyn Sources,
) -> Result<String, Failure<'a>>
    ensures status { IfErr result (λ f. status_of f ≡ 1) }
    ensures makes { Asks (answers files.old) (state files.old) (state files.new)
        (MakesTable (rows_of (found_of asked.now)) (shown string_bytes result)) }
    ensures same { SameAnswers (answers files.old) (answers files.new) }
{
    let triple = required(asked, "triple");
    let settings = settings_in(alloc, asked, files)?;
    table_for(alloc, asked, triple, &settings, files)
}

/// The settings of the platform.
fn settings_in<'a>(
    alloc: Global,
    asked: &ArgMatches<'a>,
    files: &mut dyn Sources,
) -> Result<Vec<CfgSetting>, Failure<'a>>
    ensures status { IfErr result (λ f. status_of f ≡ 1) }
    ensures reads { Asks (answers files.old) (state files.old) (state files.new)
        (ReadsSettings (rows_of (found_of asked.now)) (shown (λ v. v.items) result)) }
    ensures same { SameAnswers (answers files.old) (answers files.new) }
{
    let name = required(asked, "cfg");
    let bytes = bytes_in(alloc, name, files)?;
    accepted(name, settings_file(alloc, &bytes))
}

/// The table for a target with this triple and these settings.
fn table_for<'a>(
    alloc: Global,
    asked: &ArgMatches<'a>,
    triple: &str,
    settings: &[CfgSetting],
    files: &mut dyn Sources,
) -> Result<String, Failure<'a>>
    ensures status { IfErr result (λ f. status_of f ≡ 1) }
    ensures makes { Asks (answers files.old) (state files.old) (state files.new)
        (MakesTableFor (rows_of (found_of asked.now)) triple.now settings.now
        (shown string_bytes result)) }
    ensures same { SameAnswers (answers files.old) (answers files.new) }
{
    let name = required(asked, "record");
    let bytes = bytes_in(alloc, name, files)?;
    accepted(name, table_file(alloc, &bytes, triple, settings))
}

/// The choice that Cargo's words mean for a record.
fn choice_made<'a>(
    alloc: Global,
    asked: &ArgMatches<'a>,
    files: &mut dyn Sources,
) -> Result<String, Failure<'a>>
    ensures status { IfErr result (λ f. status_of f ≡ 1) }
    ensures makes { Asks (answers files.old) (state files.old) (state files.new)
        (MakesChoice (rows_of (found_of asked.now)) (shown string_bytes result)) }
    ensures same { SameAnswers (answers files.old) (answers files.new) }
{
    let words = feature_words(asked);
    let name = required(asked, "record");
    let bytes = bytes_in(alloc, name, files)?;
    accepted(name, choice_file(alloc, &bytes, words))
}

/// The listings of a record's test binaries. The record is read first.
fn listings_made<'a>(
    alloc: Global,
    asked: &ArgMatches<'a>,
    files: &mut dyn Sources,
) -> Result<String, Failure<'a>>
    ensures status { IfErr result (λ f. status_of f ≡ 1) }
    ensures makes { Asks (answers files.old) (state files.old) (state files.new)
        (MakesListings (rows_of (found_of asked.now)) (shown string_bytes result)) }
    ensures same { SameAnswers (answers files.old) (answers files.new) }
{
    let ids = ids_in(alloc, asked, files)?;
    let listings = listings_by(alloc, asked, &ids, files)?;
    accepted(required(asked, "lists"), listings_file(alloc, &listings))
}

/// The ids of the record's test binaries.
fn ids_in<'a>(
    alloc: Global,
    asked: &ArgMatches<'a>,
    files: &mut dyn Sources,
) -> Result<Vec<String>, Failure<'a>>
    ensures status { IfErr result (λ f. status_of f ≡ 1) }
    ensures reads { Asks (answers files.old) (state files.old) (state files.new)
        (ReadsIds (rows_of (found_of asked.now)) (shown (λ v. map string_bytes v.items) result)) }
    ensures same { SameAnswers (answers files.old) (answers files.new) }
{
    let name = required(asked, "record");
    let bytes = bytes_in(alloc, name, files)?;
    accepted(name, binary_ids(alloc, &bytes))
}

/// The listings of these binaries: with `--nextest` of what nextest printed, and else of a folder.
fn listings_by<'a>(
    alloc: Global,
    asked: &ArgMatches<'a>,
    ids: &[String],
    files: &mut dyn Sources,
) -> Result<Listings, Failure<'a>>
    ensures status { IfErr result (λ f. status_of f ≡ 1) }
    ensures reads { Asks (answers files.old) (state files.old) (state files.new)
        (ReadsListsBy (rows_of (found_of asked.now)) (map string_bytes ids.now)
        (shown (λ v. map listing v.items) result)) }
    ensures same { SameAnswers (answers files.old) (answers files.new) }
{
    let (lists, built) = (required(asked, "lists"), is_given(asked, "built"));
    if is_given(asked, "nextest") {
        listings_of_nextest(alloc, lists, built, ids, files)
    } else {
        listings_in_folder(alloc, lists, built, ids, files)
    }
}
