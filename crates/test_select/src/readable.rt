//! What is on, the rules, and entries of accounts and explanations, printed as lines for people.

ghost use Rattle.std.specs.Prelude.{◌≡◌, IfErr};
ghost use Rattle.clap.specs.Words.{found_of, rows_of};
ghost use Rattle.test_select_files.specs.Files.{SameAnswers};
ghost use Rattle.test_select_files.specs.Reading.{Asks};
ghost use Rattle.test_select.specs.AccountCommands.{PrintsText, lines_of};
ghost use Rattle.test_select.specs.Failures.{status_of};
ghost use Rattle.test_select.specs.FeatureCommands.{EndsFeatures, EndsRules};
ghost use Rattle.test_select.specs.Runs.{ListsRules};

use crate::failure::Failure;
use clap::ArgMatches;
use feature_account_making::{
    SourcedRule, sourced_rules, write_entries, write_features, write_rules,
};
use std::alloc::Global;
use std::io::Write;
use test_select_checks::SelectError;
use test_select_features::{features_on_shared, shared_question};
use test_select_files::{FeatureQuestion, FileSource, feature_question, named_files};

/// Prints a line for each feature that is on.
pub(crate) fn print_features<'a, O: Write>(
    alloc: Global,
    asked: &ArgMatches<'a>,
    files: &mut dyn FileSource,
    out: &mut O,
) -> Result<(), Failure<'a>>
    ensures status { IfErr result (λ f. status_of f ≡ 1) }
    ensures prints { Asks (answers files.old) (state files.old) (state files.new)
        (EndsFeatures (rows_of (found_of asked.now)) result (O.contents out.old)
        (O.contents out.new)) }
    ensures same { SameAnswers (answers files.old) (answers files.new) }
{
    let question = feature_question(alloc, named_files(asked), files)?;
    let (record, choice, table) = (&question.record, &question.choice, &question.table);
    let on = features_on_shared(alloc, record, choice, table)?;
    write_features(alloc, on.as_slice(), out)?;
    Ok(())
}

/// Prints a line for each rule, where the question is not refused.
pub(crate) fn print_rules<'a, O: Write>(
    alloc: Global,
    asked: &ArgMatches<'a>,
    files: &mut dyn FileSource,
    out: &mut O,
) -> Result<(), Failure<'a>>
    ensures status { IfErr result (λ f. status_of f ≡ 1) }
    ensures prints { Asks (answers files.old) (state files.old) (state files.new)
        (EndsRules (rows_of (found_of asked.now)) result (O.contents out.old)
        (O.contents out.new)) }
    ensures same { SameAnswers (answers files.old) (answers files.new) }
{
    let question = feature_question(alloc, named_files(asked), files)?;
    let rules = rules_of(alloc, &question)?;
    write_rules(alloc, &rules, out)?;
    Ok(())
}

/// The rules of the question, each with what it comes from, where the question is not refused.
fn rules_of<'q>(
    alloc: Global,
    question: &'q FeatureQuestion,
) -> Result<Vec<SourcedRule<'q>>, SelectError>
    ensures { ListsRules question.entry.now result }
{
    let (choice, table) = (&question.choice, &question.table);
    match shared_question(alloc, &question.record, choice) {
        Ok(checked) => Ok(sourced_rules(alloc, checked.record(), choice, table)?),
        Err(refusal) => Err(refusal),
    }
}

/// Prints a line for each entry of an account or of an explanation.
pub(crate) fn print_entries<'a, O: Write>(
    alloc: Global,
    question: &FeatureQuestion,
    entries: &[usize],
    out: &mut O,
) -> Result<(), Failure<'a>>
    ensures status { IfErr result (λ f. status_of f ≡ 1) }
    ensures prints { PrintsText (lines_of question.now entries.now) result (O.contents out.old)
        (O.contents out.new) }
{
    let record = question.record.as_ref();
    let rules = sourced_rules(alloc, record, &question.choice, &question.table)?;
    write_entries(alloc, &rules, entries, out)?;
    Ok(())
}
