//! The files of a question, read one by one.

ghost use Rattle.std.specs.Prelude.{◌≡◌, IfOk, IfErr, IsNone, IsSome, Ok};
ghost use Rattle.test_select_files.specs.Failures.{status_of};
ghost use Rattle.test_select_files.specs.Defaults.{default_choice, KnowsNothing};
ghost use Rattle.test_select_files.specs.Files.{SameAnswers};
ghost use Rattle.test_select_files.specs.Reading.{
  Asks,
  bytes_read,
  ReadsAccount,
  ReadsBytes,
  ReadsChoice,
  ReadsQuestion,
  ReadsRecord,
  ReadsTable,
};
ghost use Rattle.test_select_files.specs.Refusals.{accepted};
ghost use Rattle.test_select_files.specs.Words.{name_in, names_of};

use crate::file_source::FileSource;
use crate::options::QuestionFiles;
use crate::run_failure::RunFailure;
use indexmap::IndexMap;
use record_files::{AccountFile, ReadError, read_account, read_choice, read_record, read_table};
use std::alloc::Global;
use std::rc::Rc;
use workspace_record::{FeatureChoice, PlatformTable, Standard, WorkspaceRecord};

/// What is asked on features. The record is shared with the graphs that are made over its rows.
pub struct FeatureQuestion {
    pub record: Rc<WorkspaceRecord>,
    pub choice: FeatureChoice,
    pub table: PlatformTable,
}

// Written out, so that a function that lets one go takes one step.
impl Drop for FeatureQuestion {
    fn drop(self) {
        let FeatureQuestion {
            record: _,
            choice: _,
            table: _,
        } = self;
    }
}

/// Reads and decodes the record, then the choice, then the table. The first file that fails ends the
/// reading.
pub fn feature_question<'a>(
    alloc: Global,
    names: QuestionFiles<'a>,
    files: &mut dyn FileSource,
) -> Result<FeatureQuestion, RunFailure<'a>>
    ensures status { IfErr result (λ f. status_of f ≡ 1) }
    ensures reads { Asks (answers files.old) (state files.old) (state files.new)
        (ReadsQuestion (names_of names.entry) result) }
    ensures same { SameAnswers (answers files.old) (answers files.new) }
{
    let record = Rc::new(alloc, record_in(alloc, names.record, files)?)?;
    let choice = choice_in(alloc, names.choice, files)?;
    let table = table_in(alloc, names.table, files)?;
    Ok(FeatureQuestion {
        record,
        choice,
        table,
    })
}

/// The record in the file with this name.
pub fn record_in<'a>(
    alloc: Global,
    name: &'a str,
    files: &mut dyn FileSource,
) -> Result<WorkspaceRecord, RunFailure<'a>>
    ensures status { IfErr result (λ f. status_of f ≡ 1) }
    ensures reads { Asks (answers files.old) (state files.old) (state files.new)
        (ReadsRecord name.now result) }
    ensures same { SameAnswers (answers files.old) (answers files.new) }
{
    let bytes = bytes_in(alloc, name, files)?;
    accepted(name, read_record(alloc, &bytes))
}

fn choice_in<'a>(
    alloc: Global,
    name: Option<&'a str>,
    files: &mut dyn FileSource,
) -> Result<FeatureChoice, RunFailure<'a>>
    ensures absent { IfOk result (λ c. IsNone name.entry → c ≡ default_choice) }
    ensures fails { IfErr result (λ f. IsSome name.entry × (status_of f ≡ 1)) }
    ensures reads { Asks (answers files.old) (state files.old) (state files.new)
        (ReadsChoice (name_in name.entry) result) }
    ensures same { SameAnswers (answers files.old) (answers files.new) }
{
    let Some(name) = name else {
        return Ok(choice_of_defaults(alloc));
    };
    let bytes = bytes_in(alloc, name, files)?;
    accepted(name, read_choice(alloc, &bytes))
}

/// The choice where no file is named.
fn choice_of_defaults(alloc: Global) -> FeatureChoice
    ensures { result ≡ default_choice }
{
    FeatureChoice {
        standard: Standard::Default,
        extras: Vec::new(alloc),
    }
}

fn table_in<'a>(
    alloc: Global,
    name: Option<&'a str>,
    files: &mut dyn FileSource,
) -> Result<PlatformTable, RunFailure<'a>>
    ensures absent { IfOk result (λ t. IsNone name.entry → KnowsNothing t) }
    ensures fails { IfErr result (λ f. IsSome name.entry × (status_of f ≡ 1)) }
    ensures reads { Asks (answers files.old) (state files.old) (state files.new)
        (ReadsTable (name_in name.entry) result) }
    ensures same { SameAnswers (answers files.old) (answers files.new) }
{
    let Some(name) = name else {
        return Ok(nothing_known(alloc));
    };
    let bytes = bytes_in(alloc, name, files)?;
    accepted(name, read_table(alloc, &bytes))
}

/// The table where no file is named.
fn nothing_known(alloc: Global) -> PlatformTable
    ensures { KnowsNothing result }
{
    PlatformTable {
        answers: IndexMap::new(alloc),
        unknown_counts: true,
    }
}

/// The account or the explanation in the file with this name.
pub fn account_in<'a>(
    alloc: Global,
    name: &'a str,
    files: &mut dyn FileSource,
) -> Result<AccountFile, RunFailure<'a>>
    ensures status { IfErr result (λ f. status_of f ≡ 1) }
    ensures reads { Asks (answers files.old) (state files.old) (state files.new)
        (ReadsAccount name.now result) }
    ensures same { SameAnswers (answers files.old) (answers files.new) }
{
    let bytes = bytes_in(alloc, name, files)?;
    accepted(name, read_account(alloc, &bytes))
}

/// The bytes of the file with this name.
pub fn bytes_in<'a>(
    alloc: Global,
    name: &'a str,
    files: &mut dyn FileSource,
) -> Result<Vec<u8>, RunFailure<'a>>
    ensures status { IfErr result (λ f. status_of f ≡ 1) }
    ensures reads { Asks (answers files.old) (state files.old) (state files.new)
        (ReadsBytes name.now (bytes_read result)) }
    ensures same { SameAnswers (answers files.old) (answers files.new) }
{
    match files.read(alloc, name) {
        Ok(bytes) => Ok(bytes),
        Err(fault) => Err(RunFailure::unread(name, fault)),
    }
}

/// What was read of the file with this name.
pub fn accepted<T>(name: &str, read: Result<T, ReadError>) -> Result<T, RunFailure<'_>>
    ensures value { IfOk result (λ v. read ≡ Ok v) }
    ensures fails { IfErr result (λ f. status_of f ≡ 1) }
    ensures accepted { result ≡ accepted name.entry read }
{
    match read {
        Ok(value) => Ok(value),
        Err(ReadError::Memory) => Err(RunFailure::Memory),
        Err(error) => Err(RunFailure::BadFile(name, error)),
    }
}
