//! The features that are on under a choice and a table.

ghost use Rattle.std.specs.Prelude.{◌≡◌, ◌↔◌, None, IfOk, IsTrue};
ghost use Rattle.workspace_record.specs.Features.{FeatureValue};
ghost use Rattle.feature_account.specs.Accounts.{concludes};
ghost use Rattle.feature_account_rules.specs.Closed.{IsOn};
ghost use Rattle.feature_account_rules.specs.RuleList.{rule_list};
ghost use Rattle.feature_account_making.specs.Lowest.{IsLowestAccount, IsLooksOf};
ghost use Rattle.test_select_features.specs.Switching.{Accounts, AreOn, SwitchesOn, unknown_extra};

use crate::questions::{checked_question, question_index, shared_index, shared_question};
use crate::resolving::resolved_features;
use feature_account::lent_rules;
use feature_account_making::{Account, account_of_lent};
use std::alloc::{AllocError, Global};
use std::rc::Rc;
use test_select_checks::{CheckedRecord, SelectError};
use test_select_rules::FeaturesOn;
use workspace_record::{FeatureChoice, PlatformTable, RecordIndex, WorkspaceRecord};

/// The features that are on: those in every set that the rules of the record, the choice and the table
/// close. They are found by a resolve of the record's feature graph (`resolved_features`). The record is
/// tested first, and then the extras of the choice.
///
/// The work grows as that of `resolved_features` and `check_record`.
pub fn features_on(
    alloc: Global,
    record: &WorkspaceRecord,
    choice: &FeatureChoice,
    table: &PlatformTable,
) -> Result<FeaturesOn, SelectError>
    ensures on { SwitchesOn record.now choice.now table.now result }
{
    match checked_question(alloc, record, choice) {
        Err(refusal) => Err(refusal),
        Ok(checked) => Ok(features_on_in(alloc, &checked, choice, table)?),
    }
}

/// The same of a record that is shared, of whose rows no copy is made.
pub fn features_on_shared(
    alloc: Global,
    record: &Rc<WorkspaceRecord>,
    choice: &FeatureChoice,
    table: &PlatformTable,
) -> Result<FeaturesOn, SelectError>
    ensures on { SwitchesOn «record».now.value choice.now table.now result }
{
    match shared_question(alloc, record, choice) {
        Err(refusal) => Err(refusal),
        Ok(checked) => Ok(features_on_in(alloc, &checked, choice, table)?),
    }
}

/// The account of what is on, each entry of which is the lowest rule that may stand at its place. The
/// record is tested first, and then the extras of the choice.
pub fn account(
    alloc: Global,
    record: &WorkspaceRecord,
    choice: &FeatureChoice,
    table: &PlatformTable,
) -> Result<Account, SelectError>
    ensures accounts { Accounts record.now choice.now table.now result }
{
    match question_index(alloc, record, choice) {
        Err(refusal) => Err(refusal),
        Ok(index) => Ok(account_under(alloc, &index, choice, table)?),
    }
}

/// The same of a record that is shared, of whose rows no copy is made.
pub fn account_shared(
    alloc: Global,
    record: &Rc<WorkspaceRecord>,
    choice: &FeatureChoice,
    table: &PlatformTable,
) -> Result<Account, SelectError>
    ensures accounts { Accounts «record».now.value choice.now table.now result }
{
    match shared_index(alloc, record, choice) {
        Err(refusal) => Err(refusal),
        Ok(index) => Ok(account_under(alloc, &index, choice, table)?),
    }
}

fn account_under(
    alloc: Global,
    index: &RecordIndex<'_>,
    choice: &FeatureChoice,
    table: &PlatformTable,
) -> Result<Account, AllocError>
    ensures lowest { IfOk result (λ a. IsLowestAccount (rule_list index.now choice.now table.now)
        a.rules.items) }
    ensures on { IfOk result (λ a. (f : FeatureValue)
        → IsTrue (concludes (rule_list index.now choice.now table.now) a.rules.items f)
        ↔ IsOn (rule_list index.now choice.now table.now) f) }
    ensures looks { IfOk result (λ a. IsLooksOf (rule_list index.now choice.now table.now)
        a.rules.items a.looks) }
{
    let rules = lent_rules(alloc, index, choice, table)?;
    account_of_lent(alloc, &rules)
}

/// The features that are on in a record that was tested, as `features_on` finds them. The extras of the
/// choice are known.
pub fn features_on_in(
    alloc: Global,
    checked: &CheckedRecord<'_>,
    choice: &FeatureChoice,
    table: &PlatformTable,
) -> Result<FeaturesOn, AllocError>
    requires known { unknown_extra checked.now choice.now ≡ None }
    ensures on { IfOk result (AreOn checked.now choice.now table.now) }
{
    resolved_features(alloc, checked.record(), checked.graph(), choice, table)
}
