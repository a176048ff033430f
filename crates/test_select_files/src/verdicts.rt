//! The file of an account or of an explanation, checked, and what is said of it.

ghost use Rattle.std.specs.Prelude.{◌≡◌, IfErr, IfOk, string_bytes};
ghost use Rattle.test_select_files.specs.Failures.{status_of};
ghost use Rattle.clap.specs.Words.{found_of, rows_of};
ghost use Rattle.test_select_files.specs.Files.{SameAnswers};
ghost use Rattle.test_select_files.specs.Reading.{Asks, ReadsCheck};
ghost use Rattle.test_select_files.specs.Verdicts.{
  EndsCheck,
  IsVerdictOn,
  PrintsVerdict,
  verdict_line,
};

use crate::file_source::FileSource;
use crate::inputs::{FeatureQuestion, account_in, feature_question};
use crate::options::{account_file, named_files};
use crate::printing::write_out;
use crate::run_failure::RunFailure;
use clap::ArgMatches;
use feature_account::{Verdict, check_account, check_explanation};
use record_files::AccountFile;
use std::alloc::{AllocError, Global};
use std::io::Write;

/// Checks the account or the explanation that the command line names, and prints what is to be said of
/// it. One that is refused is denied.
pub fn print_verdict<'a, O: Write>(
    alloc: Global,
    asked: &ArgMatches<'a>,
    files: &mut dyn FileSource,
    out: &mut O,
) -> Result<(), RunFailure<'a>>
    ensures status { IfErr result (λ f. status_of f ≡ 1) }
    ensures prints { Asks (answers files.old) (state files.old) (state files.new)
        (EndsCheck (rows_of (found_of asked.now)) result (O.contents out.old) (O.contents out.new)) }
    ensures same { SameAnswers (answers files.old) (answers files.new) }
{
    let read = check_inputs(alloc, asked, files)?;
    print_verdict_on(alloc, &read.0, &read.1, out)
}

/// Reads the files of the question, and then the account.
fn check_inputs<'a>(
    alloc: Global,
    asked: &ArgMatches<'a>,
    files: &mut dyn FileSource,
) -> Result<(FeatureQuestion, AccountFile), RunFailure<'a>>
    ensures status { IfErr result (λ f. status_of f ≡ 1) }
    ensures reads { Asks (answers files.old) (state files.old) (state files.new)
        (ReadsCheck (rows_of (found_of asked.now)) result) }
    ensures same { SameAnswers (answers files.old) (answers files.new) }
{
    let question = feature_question(alloc, named_files(asked), files)?;
    let account = account_in(alloc, account_file(asked), files)?;
    Ok((question, account))
}

/// Prints what is to be said of the file, and denies one that is refused.
fn print_verdict_on<'a, O: Write>(
    alloc: Global,
    question: &FeatureQuestion,
    account: &AccountFile,
    out: &mut O,
) -> Result<(), RunFailure<'a>>
    ensures status { IfErr result (λ f. status_of f ≡ 1) }
    ensures prints { PrintsVerdict question.now account.now result (O.contents out.old)
        (O.contents out.new) }
{
    let verdict = verdict_on(alloc, question, account)?;
    let line = verdict_line(alloc, verdict)?;
    write_out(out, line.as_bytes())?;
    match verdict {
        Verdict::Accepted => Ok(()),
        _ => Err(RunFailure::Denied),
    }
}

/// What is to be said of the file. One with a goal is an explanation, and one without an account.
pub fn verdict_on(
    alloc: Global,
    question: &FeatureQuestion,
    account: &AccountFile,
) -> Result<Verdict, AllocError>
    ensures verdict { IfOk result (IsVerdictOn question.now account.now) }
{
    let record = question.record.as_ref();
    let (choice, table) = (&question.choice, &question.table);
    match &account.goal {
        None => check_account(alloc, record, choice, table, &account.rules),
        Some(goal) => check_explanation(alloc, record, choice, table, goal, &account.rules),
    }
}

/// The line that says it, with its line feed.
pub fn verdict_line(alloc: Global, verdict: Verdict) -> Result<String, AllocError>
    ensures text { IfOk result (λ text. string_bytes text ≡ verdict_line verdict) }
{
    format!(in alloc; "{verdict}\n")
}
