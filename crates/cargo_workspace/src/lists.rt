//! The lists of tests, in a folder or as nextest prints them.

ghost use Rattle.std.specs.Prelude.{◌≡◌, [], IfErr, IfOk, map, option_map, string_bytes};
ghost use Rattle.cargo_files.specs.Added.{listing};
ghost use Rattle.test_select_files.specs.Files.{SameAnswers};
ghost use Rattle.cargo_workspace.specs.Failures.{status_of};
ghost use Rattle.cargo_workspace.specs.Files.{Asks};
ghost use Rattle.cargo_workspace.specs.Lists.{
  AddsList,
  AddsLists,
  list_path,
  ReadsFolder,
  ReadsList,
  ReadsNextest,
};
ghost use Rattle.cargo_workspace.specs.Reading.{shown};

use crate::failure::Failure;
use crate::reading::{accepted, bytes_in};
use crate::sources::Sources;
use cargo_files::{Listings, Refusal, add_listing, nextest_listings, tests_printed};
use std::alloc::{AllocError, Global};
use test_select_files::FileFault;

/// The listings of these binaries, of what nextest printed.
pub(crate) fn listings_of_nextest<'a>(
    alloc: Global,
    name: &'a str,
    built: bool,
    ids: &[String],
    files: &mut dyn Sources,
) -> Result<Listings, Failure<'a>>
    ensures status { IfErr result (λ f. status_of f ≡ 1) }
    ensures reads { Asks (answers files.old) (state files.old) (state files.new)
        (ReadsNextest name.now built (map string_bytes ids.now)
        (shown (λ v. map listing v.items) result)) }
    ensures same { SameAnswers (answers files.old) (answers files.new) }
{
    let bytes = bytes_in(alloc, name, files)?;
    accepted(name, nextest_listings(alloc, &bytes, ids, built))
}

/// The listings of these binaries, of the files of a folder. A binary without a file is refused, unless
/// `built` leaves out what was not built.
pub(crate) fn listings_in_folder<'a>(
    alloc: Global,
    folder: &'a str,
    built: bool,
    ids: &[String],
    files: &mut dyn Sources,
) -> Result<Listings, Failure<'a>>
    ensures status { IfErr result (λ f. status_of f ≡ 1) }
    ensures reads { Asks (answers files.old) (state files.old) (state files.new)
        (ReadsFolder folder.now built (map string_bytes ids.now)
        (shown (λ v. map listing v.items) result)) }
    ensures same { SameAnswers (answers files.old) (answers files.new) }
{
    let listings = folder_listings(alloc, folder, built, ids, files);
    accepted(folder, listings)
}

fn folder_listings(
    alloc: Global,
    folder: &str,
    built: bool,
    ids: &[String],
    files: &mut dyn Sources,
) -> Result<Listings, Refusal>
    ensures adds { Asks (answers files.old) (state files.old) (state files.new)
        (AddsLists folder.now built (map string_bytes ids.now) []
        (shown (λ v. map listing v.items) result)) }
    ensures same { SameAnswers (answers files.old) (answers files.new) }
{
    let mut listings = Vec::new(alloc);
    for id in ids {
        add_list(alloc, &mut listings, folder, id.as_str(), built, files)?;
    }
    Ok(listings)
}

/// Adds the tests that the list of a binary in a folder has.
fn add_list(
    alloc: Global,
    listings: &mut Listings,
    folder: &str,
    id: &str,
    built: bool,
    files: &mut dyn Sources,
) -> Result<(), Refusal>
    ensures adds { Asks (answers files.old) (state files.old) (state files.new)
        (AddsList folder.now built id.now (map listing listings.old.items)
        (shown (λ _. map listing listings.new.items) result)) }
    ensures same { SameAnswers (answers files.old) (answers files.new) }
{
    let tests = tests_in_folder(alloc, folder, id, files)?;
    add_listing(alloc, listings, id, tests, built)
}

/// What the file of a binary lists, if there is one.
fn tests_in_folder(
    alloc: Global,
    folder: &str,
    id: &str,
    files: &mut dyn Sources,
) -> Result<Option<Vec<String>>, Refusal>
    ensures reads { Asks (answers files.old) (state files.old) (state files.new)
        (ReadsList folder.now id.now
        (shown (option_map (λ v. map string_bytes v.items)) result)) }
    ensures same { SameAnswers (answers files.old) (answers files.new) }
{
    let path = list_path(alloc, folder, id)?;
    match files.read(alloc, path.as_str()) {
        Ok(Some(bytes)) => Ok(Some(tests_printed(alloc, id, &bytes)?)),
        Ok(None) => Ok(None),
        Err(FileFault::CannotRead) => Err(Refusal::UnreadList(String::from_str(alloc, id)?)),
        Err(FileFault::Memory) => Err(Refusal::Memory),
    }
}

/// The file of the list of a binary in a folder.
fn list_path(alloc: Global, folder: &str, id: &str) -> Result<String, AllocError>
    ensures path { IfOk result (λ path. string_bytes path ≡ list_path folder.now id.now) }
{
    let mut path = String::from_str(alloc, folder)?;
    path.push_str("/")?;
    path.push_str(id)?;
    Ok(path)
}
