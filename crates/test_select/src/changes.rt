//! A filter for the tests that changes may turn out otherwise, printed.

ghost use Rattle.std.specs.Prelude.{◌≡◌, ◌++◌, codes, IfErr, IfOk, map, string_bytes};
ghost use Rattle.clap.specs.Words.{found_of, rows_of};
ghost use Rattle.guppy_package_table.specs.Tables.{TableValue};
ghost use Rattle.nextest_filter_matchers.specs.Matchers.{tokens_of};
ghost use Rattle.nextest_filter_syntax.specs.Trees.{tree_of};
ghost use Rattle.nextest_filter_syntax.specs.TreeTexts.{tree_text};
ghost use Rattle.test_select_changes.specs.Changes.{Changes};
ghost use Rattle.test_select_checks.specs.Contexts.{IsDeclaredGraph, IsNeeded};
ghost use Rattle.test_select_files.specs.Failures as reading;
ghost use Rattle.test_select_files.specs.Files.{SameAnswers};
ghost use Rattle.test_select_files.specs.Reading.{Asks, bytes_read};
ghost use Rattle.test_select_files.specs.Words.{name_in};
ghost use Rattle.test_select.specs.Changes.{
  EndsChanged,
  FindsChanges,
  GathersPaths,
  ReadsChanges,
  ReadsGlobs,
  ReadsPaths,
};
ghost use Rattle.test_select.specs.Failures.{status_of};

use crate::failure::Failure;
use clap::ArgMatches;
use list_facts::write_bytes;
use nextest_filter_syntax::{GenericGlob, ParsedExpr};
use std::alloc::{AllocError, Global};
use std::io::Write;
use std::str;
use test_select_changes::{Changed, ChangedError, changed_filter, changed_packages};
use test_select_checks::{CheckedRecord, SelectError};
use test_select_files::{
    FileSource, RunFailure, bytes_in, optional, record_in, required, values_of,
};
use workspace_record::WorkspaceRecord;

/// What the command works on: the record, and the bytes of the file of paths.
struct ChangedInputs {
    workspace: WorkspaceRecord,
    listed: Vec<u8>,
}

// Written out, so that a function that lets one go takes one step.
impl Drop for ChangedInputs {
    fn drop(self) {
        let ChangedInputs {
            workspace: _,
            listed: _,
        } = self;
    }
}

/// Prints one line: a filter for the tests of changed packages, and of all that depends on them.
pub(crate) fn print_changed<'a, O: Write>(
    alloc: Global,
    asked: &ArgMatches<'a>,
    files: &mut dyn FileSource,
    out: &mut O,
) -> Result<(), Failure<'a>>
    ensures status { IfErr result (λ f. status_of f ≡ 1) }
    ensures prints { Asks (answers files.old) (state files.old) (state files.new)
        (EndsChanged (rows_of (found_of asked.now)) result (O.contents out.old)
        (O.contents out.new)) }
    ensures same { SameAnswers (answers files.old) (answers files.new) }
{
    let inputs = changed_inputs(alloc, asked, files)?;
    let changed = changed_in(alloc, asked, &inputs)?;
    let filter = changed_filter(alloc, changed)?;
    let line = filter_line(alloc, &filter)?;
    write_bytes(out, line.as_bytes())?;
    Ok(())
}

/// Reads and decodes the record, and then reads the file of paths, if one is named.
fn changed_inputs<'a>(
    alloc: Global,
    asked: &ArgMatches<'a>,
    files: &mut dyn FileSource,
) -> Result<ChangedInputs, RunFailure<'a>>
    ensures status { IfErr result (λ f. reading.status_of f ≡ 1) }
    ensures reads { Asks (answers files.old) (state files.old) (state files.new)
        (ReadsChanges (rows_of (found_of asked.now)) result) }
    ensures same { SameAnswers (answers files.old) (answers files.new) }
{
    let workspace = record_in(alloc, required(asked, "record"), files)?;
    let listed = listed_paths(alloc, optional(asked, "paths"), files)?;
    Ok(ChangedInputs { workspace, listed })
}

/// The bytes of the file of paths; none where none is named.
fn listed_paths<'a>(
    alloc: Global,
    name: Option<&'a str>,
    files: &mut dyn FileSource,
) -> Result<Vec<u8>, RunFailure<'a>>
    ensures status { IfErr result (λ f. reading.status_of f ≡ 1) }
    ensures reads { Asks (answers files.old) (state files.old) (state files.new)
        (ReadsPaths (name_in name.entry) (bytes_read result)) }
    ensures same { SameAnswers (answers files.old) (answers files.new) }
{
    match name {
        Some(name) => bytes_in(alloc, name, files),
        None => Ok(Vec::new(alloc)),
    }
}

/// The filter as it is printed, with its line feed.
fn filter_line(alloc: Global, filter: &ParsedExpr) -> Result<String, AllocError>
    ensures text { IfOk result (λ text. string_bytes text
        ≡ tree_text (tree_of filter.now) ++ codes "\n") }
{
    format!(in alloc; "{filter}\n")
}

/// What the paths of the command line and of the file come to. The record is tested first, and then the
/// globs are read.
fn changed_in<'a>(
    alloc: Global,
    asked: &ArgMatches<'a>,
    inputs: &ChangedInputs,
) -> Result<Changed, Failure<'a>>
    ensures status { IfErr result (λ f. status_of f ≡ 1) }
    ensures changed { FindsChanges (rows_of (found_of asked.now)) inputs.now result }
{
    let paths = all_paths(alloc, asked, &inputs.listed)?;
    let checked = match CheckedRecord::of(alloc, &inputs.workspace) {
        Ok(checked) => checked,
        Err(refused) => return Err(Failure::Refused(SelectError::from(refused))),
    };
    let globs = globs_of(alloc, values_of(asked, "ignore"))?;
    match changed_among(alloc, &checked, &globs, &paths) {
        Ok(changed) => Ok(changed),
        Err(ChangedError::Memory) => Err(Failure::Run(RunFailure::Memory)),
        Err(ChangedError::Path(place)) => {
            let path = paths.get(place).copied().unwrap_or("");
            Err(Failure::NotBelow(String::from_str(alloc, path)?))
        }
    }
}

/// The paths of the command line, and each line of the file of paths.
fn all_paths<'l, 'a: 'l>(
    alloc: Global,
    asked: &'l ArgMatches<'a>,
    listed: &'l [u8],
) -> Result<Vec<&'l str>, Failure<'a>>
    ensures status { IfErr result (λ f. status_of f ≡ 1) }
    ensures paths { GathersPaths (rows_of (found_of asked.entry.now)) listed.entry.now result }
{
    let Ok(lines) = str::from_utf8(listed) else {
        return Err(Failure::NotText(optional(asked, "paths").unwrap_or("")));
    };
    let mut paths = Vec::from_slice(alloc, values_of(asked, "path"))?;
    for line in lines.split('\n') {
        paths.push(line)?;
    }
    Ok(paths)
}

/// What the paths come to among the packages that the members reach by declared links.
fn changed_among(
    alloc: Global,
    checked: &CheckedRecord<'_>,
    globs: &[GenericGlob],
    paths: &[&str],
) -> Result<Changed, ChangedError>
    ensures changes { (graph : TableValue) × IsDeclaredGraph checked.now graph
        × Changes graph (IsNeeded graph) (map (λ glob. tokens_of glob) globs.now)
        (map (λ path. path.now) paths.now) result }
{
    let needed = checked.graph().query_workspace(alloc)?.resolve(alloc)?;
    changed_packages(alloc, &needed, globs, paths)
}

/// The globs that the texts read as, or the first text that is none.
fn globs_of<'a>(alloc: Global, texts: &[&'a str]) -> Result<Vec<GenericGlob>, Failure<'a>>
    ensures status { IfErr result (λ f. status_of f ≡ 1) }
    ensures reads { ReadsGlobs (map (λ text. text.now) texts.now) result }
{
    let mut globs = Vec::new(alloc);
    for text in texts {
        match GenericGlob::new(alloc, String::from_str(alloc, text)?)? {
            Ok(glob) => globs.push(glob)?,
            Err(error) => return Err(Failure::BadGlob(text, error)),
        }
    }
    Ok(globs)
}
