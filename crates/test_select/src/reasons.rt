//! Why a test is chosen or not, or a binary asked or not, printed.

ghost use Rattle.std.specs.Prelude.{◌≡◌, IfErr, IfOk, string_bytes};
ghost use Rattle.clap.specs.Words.{found_of, rows_of};
ghost use Rattle.test_select_files.specs.Files.{SameAnswers};
ghost use Rattle.test_select_files.specs.Reading.{Asks};
ghost use Rattle.test_select.specs.Failures.{status_of};
ghost use Rattle.test_select.specs.Selections.{EndsWhy, ExplainsBy, reason_line, SaysWhy, unblamed};

use crate::command_line::link_scope;
use crate::failure::Failure;
use crate::inputs::tests_inputs;
use clap::ArgMatches;
use nextest_binaries::{FileLister, Listing};
use std::alloc::{AllocError, Global};
use std::collections::BTreeMap;
use std::io::Write;
use test_select_checks::SelectError;
use test_select_files::{
    FeatureQuestion, FileSource, RunFailure, optional, required, values_of, write_out,
};
use test_select_tests::{Reason, why_shared};

/// Prints why the test that the command line names is chosen or not; where it names none, why the
/// binary is asked or not. A reason that is a no is denied.
pub(crate) fn print_why<'a, O: Write>(
    alloc: Global,
    asked: &ArgMatches<'a>,
    files: &mut dyn FileSource,
    out: &mut O,
) -> Result<(), Failure<'a>>
    ensures status { IfErr result (λ f. status_of f ≡ 1) }
    ensures prints { Asks (answers files.old) (state files.old) (state files.new)
        (EndsWhy (rows_of (found_of asked.now)) result (O.contents out.old)
        (O.contents out.new)) }
    ensures same { SameAnswers (answers files.old) (answers files.new) }
{
    let (question, listings) = tests_inputs(alloc, asked, files)?;
    let reason = reason_in(alloc, asked, &question, listings)?;
    let line = reason_line(alloc, &reason)?;
    write_out(out, line.as_bytes())?;
    if reason.says_yes() {
        Ok(())
    } else {
        Err(Failure::Run(RunFailure::Denied))
    }
}

// A lister over listings fails for one that they have only where there is no memory for its copy.
/// The reason over the links of the scope. The binary is blamed only where the listings have none of it.
fn reason_in<'q, 'a: 'q>(
    alloc: Global,
    asked: &ArgMatches<'a>,
    question: &'q FeatureQuestion,
    listings: BTreeMap<String, Listing>,
) -> Result<Reason<'q>, SelectError>
    ensures says { SaysWhy (rows_of (found_of asked.now)) question.entry.now listings result }
{
    let is_listed = listings.contains_key(required(asked, "binary"));
    let reason = reason_by(alloc, asked, question, listings);
    if is_listed { unblamed(reason) } else { reason }
}

/// The reason by a lister over the listings, which is asked for the binary alone, if at all.
fn reason_by<'q, 'a: 'q>(
    alloc: Global,
    asked: &ArgMatches<'a>,
    question: &'q FeatureQuestion,
    listings: BTreeMap<String, Listing>,
) -> Result<Reason<'q>, SelectError>
    ensures explains { ExplainsBy (rows_of (found_of asked.now)) question.entry.now listings
        result }
{
    let mut lister = FileLister::new(alloc, listings)?;
    let (record, choice, table) = (&question.record, &question.choice, &question.table);
    let (scope, texts) = (link_scope(asked), values_of(asked, "filter"));
    let (id, test) = (required(asked, "binary"), optional(asked, "test"));
    why_shared(
        alloc,
        record,
        choice,
        table,
        scope,
        texts,
        id,
        test,
        &mut lister,
    )
}

/// The same, where memory ran out in place of a failure of the lister.
fn unblamed<'q>(reason: Result<Reason<'q>, SelectError>) -> Result<Reason<'q>, SelectError>
    ensures { result ≡ unblamed reason.entry }
{
    match reason {
        Err(SelectError::Lister(_)) => Err(SelectError::Memory),
        told => told,
    }
}

/// The line that says it, with its line feed.
fn reason_line(alloc: Global, reason: &Reason<'_>) -> Result<String, AllocError>
    ensures text { IfOk result (λ text. string_bytes text ≡ reason_line reason.now) }
{
    format!(in alloc; "{reason}\n")
}
