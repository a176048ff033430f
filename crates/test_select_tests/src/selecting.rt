//! The selection of tests.

ghost use Rattle.std.specs.Prelude.{map};
ghost use Rattle.nextest_binaries.specs.Listers.{Shown, unasked};
ghost use Rattle.test_select_tests.specs.Choosing.{BlamesUnlisted};
ghost use Rattle.test_select_tests.specs.Selecting.{Answers};
ghost use Rattle.test_select_tests.specs.declared.asked_binaries.AskedBinaries.TheVariants.{Available, LetThrough};

use crate::asked_binaries::AskedBinaries;
use crate::asking::{ask_and_choose, take_and_choose};
use crate::plan::{make_plan, make_shared_plan};
use crate::scope::LinkScope;
use crate::selection::Selection;
use nextest_binaries::{Listing, TestLister};
use std::alloc::Global;
use std::collections::BTreeMap;
use std::rc::Rc;
use test_select_checks::SelectError;
use workspace_record::{FeatureChoice, PlatformTable, WorkspaceRecord};

/// The tests of which one of the texts and the record's default filter hold, of the test binaries that
/// are available under the choice on the table's platform; where no text is given, those of which the
/// default filter holds. A record without a default filter has that of all tests.
///
/// The record is tested first, then the choice, then the texts in order, and all that before the
/// lister is asked. It is asked once for each available binary of which some test may be chosen,
/// ascending by id, and each answer is tested before the next is asked for. The first failure or bad
/// listing ends the selection.
pub fn select(
    alloc: Global,
    record: &WorkspaceRecord,
    choice: &FeatureChoice,
    table: &PlatformTable,
    scope: LinkScope,
    texts: &[&str],
    lister: &mut dyn TestLister,
) -> Result<Selection, SelectError>
    ensures answers { Answers (record {
      workspace = record.now;
      choice = choice.now;
      table = table.now;
      scope = scope;
      texts = map (λ t. t.now) texts.now;
      asks = LetThrough;
    })
        (shown lister.old) result (shown lister.new) }
{
    let asks = AskedBinaries::LetThrough;
    let plan = make_plan(alloc, record, choice, table, scope, texts, asks)?;
    ask_and_choose(alloc, &plan, lister)
}

/// The same tests, by a lister that is asked for each available binary, also where no test of it can be
/// chosen.
pub fn select_plain(
    alloc: Global,
    record: &WorkspaceRecord,
    choice: &FeatureChoice,
    table: &PlatformTable,
    scope: LinkScope,
    texts: &[&str],
    lister: &mut dyn TestLister,
) -> Result<Selection, SelectError>
    ensures answers { Answers (record {
      workspace = record.now;
      choice = choice.now;
      table = table.now;
      scope = scope;
      texts = map (λ t. t.now) texts.now;
      asks = Available;
    })
        (shown lister.old) result (shown lister.new) }
{
    let asks = AskedBinaries::Available;
    let plan = make_plan(alloc, record, choice, table, scope, texts, asks)?;
    ask_and_choose(alloc, &plan, lister)
}

/// The same tests of a record that is shared, of whose rows no copy is made, where a lister over these
/// listings is asked for these binaries. The listings are taken over, and no name is copied. A binary is
/// blamed only if none of them is its.
pub fn select_listed(
    alloc: Global,
    record: &Rc<WorkspaceRecord>,
    choice: &FeatureChoice,
    table: &PlatformTable,
    scope: LinkScope,
    texts: &[&str],
    asks: AskedBinaries,
    listings: BTreeMap<String, Listing>,
) -> Result<Selection, SelectError>
    ensures answers { (after : Shown) × Answers (record {
      workspace = «record».now.value;
      choice = choice.now;
      table = table.now;
      scope = scope;
      texts = map (λ t. t.now) texts.now;
      asks = asks;
    })
        (unasked listings) result after }
    ensures missing { BlamesUnlisted listings result }
{
    let plan = make_shared_plan(alloc, record, choice, table, scope, texts, asks)?;
    take_and_choose(alloc, &plan, listings)
}
