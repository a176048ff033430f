//! Explanations of features, printed.

ghost use Rattle.std.specs.Prelude.{◌≡◌, IfErr, IfOk};
ghost use Rattle.clap.specs.Words.{found_of, rows_of};
ghost use Rattle.record_files.specs.Choices.{label_of};
ghost use Rattle.test_select_files.specs.Files.{SameAnswers};
ghost use Rattle.test_select_files.specs.Reading.{Asks};
ghost use Rattle.test_select.specs.AccountCommands.{EndsExplanation, PrintsExplanation};
ghost use Rattle.test_select.specs.Failures.{status_of};

use crate::failure::Failure;
use crate::readable::print_entries;
use clap::ArgMatches;
use record_files::label_of;
use std::alloc::{AllocError, Global};
use std::io::Write;
use test_select_features::{explain_shared, write_explanation};
use test_select_files::{
    FeatureQuestion, FileSource, RunFailure, feature_question, is_given, named_files, required,
    write_out,
};
use workspace_record::Feature;

/// Prints the explanation of the feature that the command line names, or that it is not on.
pub(crate) fn print_explanation<'a, O: Write>(
    alloc: Global,
    asked: &ArgMatches<'a>,
    files: &mut dyn FileSource,
    out: &mut O,
) -> Result<(), Failure<'a>>
    ensures status { IfErr result (λ f. status_of f ≡ 1) }
    ensures prints { Asks (answers files.old) (state files.old) (state files.new)
        (EndsExplanation (rows_of (found_of asked.now)) result (O.contents out.old)
        (O.contents out.new)) }
    ensures same { SameAnswers (answers files.old) (answers files.new) }
{
    let question = feature_question(alloc, named_files(asked), files)?;
    let feature = feature_named(
        alloc,
        required(asked, "package"),
        required(asked, "feature"),
    )?;
    print_explanation_of(alloc, &question, &feature, is_given(asked, "readable"), out)
}

fn print_explanation_of<'a, O: Write>(
    alloc: Global,
    question: &FeatureQuestion,
    feature: &Feature,
    readable: bool,
    out: &mut O,
) -> Result<(), Failure<'a>>
    ensures status { IfErr result (λ f. status_of f ≡ 1) }
    ensures prints { PrintsExplanation readable feature.now question.now result
        (O.contents out.old) (O.contents out.new) }
{
    let (record, choice, table) = (&question.record, &question.choice, &question.table);
    match explain_shared(alloc, record, choice, table, feature)? {
        Some(entries) if readable => print_entries(alloc, question, &entries, out),
        Some(entries) => {
            write_explanation(alloc, feature, &entries, out)?;
            Ok(())
        }
        None => {
            write_out(out, b"not on\n")?;
            Err(Failure::Run(RunFailure::Denied))
        }
    }
}

/// The feature of the package with this id that a choice names by this text.
fn feature_named(alloc: Global, package_id: &str, text: &str) -> Result<Feature, AllocError>
    ensures named { IfOk result (λ f. f ≡ record {
      package_id = package_id.now;
      label = label_of text.now;
    }) }
{
    let package = String::from_str(alloc, package_id)?;
    let label = label_of(alloc, text)?;
    Ok(Feature { package, label })
}
