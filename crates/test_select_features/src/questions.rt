//! The record of a question on features, once it is known that the question can be answered.

ghost use Rattle.std.specs.Prelude.{◌≡◌, Ok};
ghost use Rattle.test_select_checks.specs.Checks.{IsChecked};
ghost use Rattle.test_select_features.specs.Switching.{ServesQuestion};

use crate::extras::unknown_extra;
use std::alloc::Global;
use std::rc::Rc;
use test_select_checks::{CheckedRecord, SelectError};
use workspace_record::{FeatureChoice, RecordIndex, WorkspaceRecord};

/// The record of a question: tested, and then the extras of the choice.
pub fn checked_question<'r>(
    alloc: Global,
    record: &'r WorkspaceRecord,
    choice: &FeatureChoice,
) -> Result<CheckedRecord<'r>, SelectError>
    ensures served { ServesQuestion «record».entry.now choice.now result }
{
    let checked = CheckedRecord::of(alloc, record)?;
    with_known_extras(checked, choice)
}

/// The same of a record that is shared, of whose rows no copy is made.
pub fn shared_question<'r>(
    alloc: Global,
    record: &'r Rc<WorkspaceRecord>,
    choice: &FeatureChoice,
) -> Result<CheckedRecord<'r>, SelectError>
    ensures served { ServesQuestion «record».entry.now.value choice.now result }
{
    let checked = CheckedRecord::of_shared(alloc, record)?;
    with_known_extras(checked, choice)
}

/// The record, which was tested, if it knows the extras of the choice.
fn with_known_extras<'r>(
    checked: CheckedRecord<'r>,
    choice: &FeatureChoice,
) -> Result<CheckedRecord<'r>, SelectError>
    requires tested { IsChecked checked (Ok tt) }
    ensures { ServesQuestion checked.entry choice.now result }
{
    match unknown_extra(checked.index(), choice) {
        Some(place) => Err(SelectError::UnknownExtra(place)),
        None => Ok(checked),
    }
}

/// What is found at once in the record of a question, tested in the same way.
pub(crate) fn question_index<'r>(
    alloc: Global,
    record: &'r WorkspaceRecord,
    choice: &FeatureChoice,
) -> Result<RecordIndex<'r>, SelectError>
    ensures served { ServesQuestion «record».entry.now choice.now result }
{
    match checked_question(alloc, record, choice) {
        Ok(checked) => Ok(checked.into_index()),
        Err(refusal) => Err(refusal),
    }
}

/// The same of a record that is shared, of whose rows no copy is made.
pub(crate) fn shared_index<'r>(
    alloc: Global,
    record: &'r Rc<WorkspaceRecord>,
    choice: &FeatureChoice,
) -> Result<RecordIndex<'r>, SelectError>
    ensures served { ServesQuestion «record».entry.now.value choice.now result }
{
    match shared_question(alloc, record, choice) {
        Ok(checked) => Ok(checked.into_index()),
        Err(refusal) => Err(refusal),
    }
}
