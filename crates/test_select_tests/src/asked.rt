//! Which binaries a selection asks for their tests, told before anything is built.

ghost use Rattle.std.specs.Prelude.{map};
ghost use Rattle.test_select_tests.specs.Selecting.{ListsAsked};
ghost use Rattle.test_select_tests.specs.declared.asked_binaries.AskedBinaries.TheVariants.{LetThrough};

use crate::asked_binaries::AskedBinaries;
use crate::asking::ids;
use crate::plan::{make_plan, make_shared_plan};
use crate::scope::LinkScope;
use std::alloc::Global;
use std::rc::Rc;
use test_select_checks::SelectError;
use workspace_record::{FeatureChoice, PlatformTable, WorkspaceRecord};

/// The ids of the binaries that `select` asks for their tests, ascending, each once. It is refused as
/// `select` is, but for what a lister may answer: nobody is asked, and no listing is needed.
pub fn binaries_to_ask(
    alloc: Global,
    record: &WorkspaceRecord,
    choice: &FeatureChoice,
    table: &PlatformTable,
    scope: LinkScope,
    texts: &[&str],
) -> Result<Vec<String>, SelectError>
    ensures asked { ListsAsked (record {
      workspace = record.now;
      choice = choice.now;
      table = table.now;
      scope = scope;
      texts = map (λ t. t.now) texts.now;
      asks = LetThrough;
    })
        result }
{
    let asks = AskedBinaries::LetThrough;
    let plan = make_plan(alloc, record, choice, table, scope, texts, asks)?;
    let asked = ids(alloc, &plan.asked)?;
    Ok(asked)
}

/// The same of a record that is shared, of whose rows no copy is made, and of these binaries.
pub fn binaries_to_ask_shared(
    alloc: Global,
    record: &Rc<WorkspaceRecord>,
    choice: &FeatureChoice,
    table: &PlatformTable,
    scope: LinkScope,
    texts: &[&str],
    asks: AskedBinaries,
) -> Result<Vec<String>, SelectError>
    ensures asked { ListsAsked (record {
      workspace = «record».now.value;
      choice = choice.now;
      table = table.now;
      scope = scope;
      texts = map (λ t. t.now) texts.now;
      asks = asks;
    })
        result }
{
    let plan = make_shared_plan(alloc, record, choice, table, scope, texts, asks)?;
    let asked = ids(alloc, &plan.asked)?;
    Ok(asked)
}
