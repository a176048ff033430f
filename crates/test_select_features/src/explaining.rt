//! Why a feature is on under a choice and a table.

ghost use Rattle.std.specs.Prelude.{IfOk};
ghost use Rattle.test_select_features.specs.Explaining.{Explains, IsExplained};

use crate::questions::{question_index, shared_index};
use feature_account::rules_in;
use feature_account_making::{account_of, explanation_of};
use std::alloc::{AllocError, Global};
use std::rc::Rc;
use test_select_checks::SelectError;
use workspace_record::{Feature, FeatureChoice, PlatformTable, RecordIndex, WorkspaceRecord};

/// The entries of the account of what is on, in its order, that the feature's conclusion rests on, that
/// one last; none where the feature is not on. The record is tested first, and then the extras of the
/// choice.
pub fn explain(
    alloc: Global,
    record: &WorkspaceRecord,
    choice: &FeatureChoice,
    table: &PlatformTable,
    feature: &Feature,
) -> Result<Option<Vec<usize>>, SelectError>
    ensures answer { Explains record.now choice.now table.now feature.now result }
{
    match question_index(alloc, record, choice) {
        Err(refusal) => Err(refusal),
        Ok(index) => Ok(explanation_under(alloc, &index, choice, table, feature)?),
    }
}

/// The same of a record that is shared, of whose rows no copy is made.
pub fn explain_shared(
    alloc: Global,
    record: &Rc<WorkspaceRecord>,
    choice: &FeatureChoice,
    table: &PlatformTable,
    feature: &Feature,
) -> Result<Option<Vec<usize>>, SelectError>
    ensures answer { Explains «record».now.value choice.now table.now feature.now result }
{
    match shared_index(alloc, record, choice) {
        Err(refusal) => Err(refusal),
        Ok(index) => Ok(explanation_under(alloc, &index, choice, table, feature)?),
    }
}

fn explanation_under(
    alloc: Global,
    index: &RecordIndex<'_>,
    choice: &FeatureChoice,
    table: &PlatformTable,
    feature: &Feature,
) -> Result<Option<Vec<usize>>, AllocError>
    ensures { IfOk result (IsExplained index.now choice.now table.now feature.now) }
{
    let rules = rules_in(alloc, index, choice, table)?;
    let account = account_of(alloc, &rules)?;
    explanation_of(alloc, &rules, &account.rules, feature)
}
