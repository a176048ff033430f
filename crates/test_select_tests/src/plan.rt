//! What is to be asked, and by which filters the answers are to be read.

ghost use Rattle.std.specs.Prelude.{◌≡◌, ◌↔◌, IfOk, IsTrue, None, map, Contains};
ghost use Rattle.list_facts.specs.Ascending.{IsAscendingOf, text_cmp};
ghost use Rattle.test_select_features.specs.Switching.{unknown_extra};
ghost use Rattle.test_select_rules.specs.BinaryView.{binary_view};
ghost use Rattle.test_select_rules.specs.declared.test_binary.TestBinary.{TestBinary};
ghost use Rattle.test_select_tests.specs.Kept.{AreThose};
ghost use Rattle.test_select_tests.specs.Plans.{MayMatch, Plans};
ghost use Rattle.test_select_tests.specs.QuestionFilters.{question_view};

use crate::asked_binaries::AskedBinaries;
use crate::byte_names::{feature_names_are_bytes, record_names_are_bytes};
use crate::evaluation::may_pass;
use crate::filtering::compile_question_filters;
use crate::question_filters::QuestionFilters;
use crate::scope::LinkScope;
use std::alloc::{AllocError, Global};
use std::rc::Rc;
use test_select_checks::{CheckedRecord, SelectError};
use test_select_features::{checked_question, features_on_in, shared_question};
use test_select_rules::FeaturesOn;
use test_select_rules::availability::is_available;
use test_select_rules::binaries::TestBinary;
use workspace_record::{FeatureChoice, PlatformTable, WorkspaceRecord};

/// The filters, and the binaries to ask for, ascending by id.
pub(crate) struct Plan<'r> {
    pub(crate) filters: QuestionFilters,
    pub(crate) asked: Vec<TestBinary<'r>>,
}

// Written out, so that a function that lets one go takes one step.
impl Drop for Plan<'_> {
    fn drop(self) {
        let Plan {
            filters: _,
            asked: _,
        } = self;
    }
}

pub(crate) fn make_plan<'r>(
    alloc: Global,
    record: &'r WorkspaceRecord,
    choice: &FeatureChoice,
    table: &PlatformTable,
    scope: LinkScope,
    texts: &[&str],
    asks: AskedBinaries,
) -> Result<Plan<'r>, SelectError>
    ensures { Plans (record {
      workspace = record.entry.now;
      choice = choice.now;
      table = table.now;
      scope = scope;
      texts = map (λ t. t.now) texts.now;
      asks = asks;
    }) result }
{
    let checked = checked_question(alloc, record, choice)?;
    plan_in(alloc, checked, choice, table, scope, texts, asks)
}

/// The same of a record that is shared.
pub(crate) fn make_shared_plan<'r>(
    alloc: Global,
    record: &'r Rc<WorkspaceRecord>,
    choice: &FeatureChoice,
    table: &PlatformTable,
    scope: LinkScope,
    texts: &[&str],
    asks: AskedBinaries,
) -> Result<Plan<'r>, SelectError>
    ensures { Plans (record {
      workspace = «record».entry.now.value;
      choice = choice.now;
      table = table.now;
      scope = scope;
      texts = map (λ t. t.now) texts.now;
      asks = asks;
    })
        result }
{
    let checked = shared_question(alloc, record, choice)?;
    plan_in(alloc, checked, choice, table, scope, texts, asks)
}

/// The same of a record that was tested, where the extras of the choice are known.
fn plan_in<'r>(
    alloc: Global,
    checked: CheckedRecord<'r>,
    choice: &FeatureChoice,
    table: &PlatformTable,
    scope: LinkScope,
    texts: &[&str],
    asks: AskedBinaries,
) -> Result<Plan<'r>, SelectError>
    requires known { unknown_extra checked choice.now ≡ None }
    ensures { Plans (record {
      workspace = checked.entry;
      choice = choice.now;
      table = table.now;
      scope = scope;
      texts = map (λ t. t.now) texts.now;
      asks = asks;
    }) result }
{
    record_names_are_bytes(checked.record());
    let on = features_on_in(alloc, &checked, choice, table)?;
    feature_names_are_bytes(on.as_slice());
    let filters = compile_question_filters(alloc, &checked, &on, table, scope, texts)?;
    let all = checked.into_binaries();
    let asked = sorted_binaries(binaries_that_may_match(alloc, all, &on, &filters, asks)?)?;
    Ok(Plan { filters, asked })
}

/// Those of the binaries that are available and wanted, in their order.
fn binaries_that_may_match<'r>(
    alloc: Global,
    all: Vec<TestBinary<'r>>,
    on: &FeaturesOn,
    filters: &QuestionFilters,
    asks: AskedBinaries,
) -> Result<Vec<TestBinary<'r>>, AllocError>
    ensures { IfOk result (λ v. AreThose
        (MayMatch asks (λ f. Contains on.now f) (question_view filters.now))
        (map binary_view all.entry.items) (map binary_view v.items)) }
{
    let mut kept: Vec<TestBinary<'r>> = Vec::new(alloc);
    for binary in all {
        if may_match(alloc, on, filters, asks, &binary)? {
            kept.push(binary)?;
        }
    }
    Ok(kept)
}

/// Whether the binary is available and wanted.
fn may_match(
    alloc: Global,
    on: &FeaturesOn,
    filters: &QuestionFilters,
    asks: AskedBinaries,
    binary: &TestBinary<'_>,
) -> Result<bool, AllocError>
    ensures { IfOk result (λ r. IsTrue r
        ↔ MayMatch asks (λ f. Contains on.now f) (question_view filters.now)
        (binary_view binary.now)) }
{
    let (row, target) = (binary.row, binary.target);
    if !is_available(on, row.id.as_str(), target) {
        return Ok(false);
    }
    match asks {
        AskedBinaries::Available => Ok(true),
        AskedBinaries::LetThrough => may_pass(alloc, filters, &binary.query()),
    }
}

fn sorted_binaries(mut all: Vec<TestBinary<'_>>) -> Result<Vec<TestBinary<'_>>, AllocError>
    ensures ascending { IfOk result (λ v. IsAscendingOf text_cmp (map (λ b. b.id) all.entry.items)
        (map (λ b. b.id) v.items)) }
    ensures all_of_them { IfOk result (λ v. (b : TestBinary) → Contains v.items b
        → Contains all.entry.items b) }
{
    all.sort()?;
    all.dedup();
    Ok(all)
}
