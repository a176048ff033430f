//! The order in which packages build.

ghost use Rattle.std.specs.Prelude.{◌≡◌, None, IfOk};
ghost use Rattle.list_facts.specs.Texts.{texts};
ghost use Rattle.test_select_features.specs.Orders.{IsPackageOrder, Orders};
ghost use Rattle.test_select_features.specs.Switching.{unknown_extra};

use crate::dependency_orders::dependency_order;
use crate::questions::{checked_question, shared_question};
use crate::switching::features_on_in;
use std::alloc::{AllocError, Global};
use std::rc::Rc;
use test_select_checks::{CheckedRecord, SelectError};
use workspace_record::{FeatureChoice, PlatformTable, WorkspaceRecord};

/// The ids of the packages that are on, each once, dependencies first: a package comes after all to
/// which lines that are on lead from it, but for those that lead back to it. The record is tested first,
/// and then the extras of the choice.
pub fn package_order(
    alloc: Global,
    record: &WorkspaceRecord,
    choice: &FeatureChoice,
    table: &PlatformTable,
) -> Result<Vec<String>, SelectError>
    ensures order { Orders record.now choice.now table.now result }
{
    match checked_question(alloc, record, choice) {
        Ok(checked) => Ok(package_order_in(alloc, &checked, choice, table)?),
        Err(refused) => Err(refused),
    }
}

/// The same of a record that is shared, of whose rows no copy is made.
pub fn package_order_shared(
    alloc: Global,
    record: &Rc<WorkspaceRecord>,
    choice: &FeatureChoice,
    table: &PlatformTable,
) -> Result<Vec<String>, SelectError>
    ensures order { Orders «record».now.value choice.now table.now result }
{
    match shared_question(alloc, record, choice) {
        Ok(checked) => Ok(package_order_in(alloc, &checked, choice, table)?),
        Err(refused) => Err(refused),
    }
}

/// The same in a record that was tested, where the extras of the choice are known.
fn package_order_in(
    alloc: Global,
    checked: &CheckedRecord<'_>,
    choice: &FeatureChoice,
    table: &PlatformTable,
) -> Result<Vec<String>, AllocError>
    requires known { unknown_extra checked.now choice.now ≡ None }
    ensures order { IfOk result (λ ids. IsPackageOrder checked.now choice.now table.now
        (texts ids.items)) }
{
    let on = features_on_in(alloc, checked, choice, table)?;
    dependency_order(alloc, checked.graph(), &on, table)
}
