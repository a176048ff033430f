//! Whether and why a test is chosen, or a binary asked.

ghost use Rattle.std.specs.Prelude.{◌≡◌, ◌<◌, IfOk, IsTrue, None, Contains, length, map, option_map};
ghost use Rattle.list_facts.specs.Texts.{texts};
ghost use Rattle.test_select_features.specs.Switching.{unknown_extra};
ghost use Rattle.nextest_binaries.specs.Queries.{test_of};
ghost use Rattle.test_select_tests.specs.QuestionFilters.{question_view};
ghost use Rattle.test_select_rules.specs.BinaryView.{binary_view};
ghost use Rattle.test_select_tests.specs.CompiledReasons.{IsReasonOfBinary, IsReasonOfListed, IsReasonOfTest, chosen_by};
ghost use Rattle.test_select_rules.specs.Asked.{binary_asked, test_asked};
ghost use Rattle.test_select_tests.specs.Telling.{ListsOne, TellsAmong, TellsOf, TellsOfAvailable};
ghost use Rattle.test_select_tests.specs.Explaining.{Explains};
ghost use Rattle.test_select_tests.specs.declared.asked_binaries.AskedBinaries.TheVariants.{LetThrough};

use crate::evaluation::{default_may_pass, some_may_pass};
use crate::filtering::compile_question_filters;
use crate::finding::{binary_with_id, first_off};
use crate::holding::{default_holds, first_that_holds};
use crate::laws::{feature_names_are_bytes, record_names_are_bytes};
use crate::question_filters::QuestionFilters;
use crate::reason::{BinaryReason, Reason, TestReason};
use crate::scope::LinkScope;
use guppy_package_parts::contains_text;
use nextest_binaries::{AskError, Listing, TestLister, ask_each};
use nextest_filtering::{TestCaseName, TestQuery};
use std::alloc::{AllocError, Global};
use std::rc::Rc;
use test_select_checks::{CheckedRecord, SelectError};
use test_select_features::{checked_question, features_on_in, shared_question};
use test_select_rules::FeaturesOn;
use test_select_rules::binaries::TestBinary;
use workspace_record::{FeatureChoice, PlatformTable, WorkspaceRecord};

// With a test the lister is asked also where `select` would not ask: whether the test is listed comes before
// the filters. A binary may be asked though none of its tests is chosen then.
/// Why the test of the binary with this id is chosen or not; without a test, why the binary is asked or
/// not. `select` chooses the test, or asks the binary, exactly where the reason says yes.
///
/// The record is tested first, then the choice, then the texts in order, as `select` does. The lister is
/// asked for the binary alone, once, and only for a test of a binary whose required features are on.
pub fn why<'a>(
    alloc: Global,
    record: &'a WorkspaceRecord,
    choice: &FeatureChoice,
    table: &PlatformTable,
    scope: LinkScope,
    texts: &[&str],
    id: &'a str,
    test: Option<&str>,
    lister: &mut dyn TestLister,
) -> Result<Reason<'a>, SelectError>
    ensures explains { Explains (record {
      workspace = «record».entry.now;
      choice = choice.now;
      table = table.now;
      scope = scope;
      texts = map (λ t. t.now) texts.now;
      asks = LetThrough;
    })
        id.entry.now (option_map (λ t. t.now) test.entry) (shown lister.old) result
        (shown lister.new) }
{
    let checked = checked_question(alloc, record, choice)?;
    why_in(
        alloc, &checked, choice, table, scope, texts, id, test, lister,
    )
}

/// The same of a record that is shared, of whose rows no copy is made.
pub fn why_shared<'a>(
    alloc: Global,
    record: &'a Rc<WorkspaceRecord>,
    choice: &FeatureChoice,
    table: &PlatformTable,
    scope: LinkScope,
    texts: &[&str],
    id: &'a str,
    test: Option<&str>,
    lister: &mut dyn TestLister,
) -> Result<Reason<'a>, SelectError>
    ensures explains { Explains (record {
      workspace = «record».entry.now.value;
      choice = choice.now;
      table = table.now;
      scope = scope;
      texts = map (λ t. t.now) texts.now;
      asks = LetThrough;
    })
        id.entry.now (option_map (λ t. t.now) test.entry) (shown lister.old) result
        (shown lister.new) }
{
    let checked = shared_question(alloc, record, choice)?;
    why_in(
        alloc, &checked, choice, table, scope, texts, id, test, lister,
    )
}

/// The same of a record that was tested, where the extras of the choice are known.
fn why_in<'a>(
    alloc: Global,
    checked: &CheckedRecord<'a>,
    choice: &FeatureChoice,
    table: &PlatformTable,
    scope: LinkScope,
    texts: &[&str],
    id: &'a str,
    test: Option<&str>,
    lister: &mut dyn TestLister,
) -> Result<Reason<'a>, SelectError>
    requires known { unknown_extra checked.now choice.now ≡ None }
    ensures { Explains (record {
      workspace = checked.now;
      choice = choice.now;
      table = table.now;
      scope = scope;
      texts = map (λ t. t.now) texts.now;
      asks = LetThrough;
    }) id.entry.now
        (option_map (λ t. t.now) test.entry) (shown lister.old) result (shown lister.new) }
{
    record_names_are_bytes(checked.record());
    let on = features_on_in(alloc, checked, choice, table)?;
    feature_names_are_bytes(on.as_slice());
    let filters = compile_question_filters(alloc, checked, &on, table, scope, texts)?;
    let are_given = !texts.is_empty();
    let all = checked.binaries();
    among(alloc, all, &on, &filters, are_given, id, test, lister)
}

/// The same by the test binaries, the features that are on, and the filters.
fn among<'a>(
    alloc: Global,
    all: &[TestBinary<'a>],
    on: &FeaturesOn,
    filters: &QuestionFilters,
    are_given: bool,
    id: &'a str,
    test: Option<&str>,
    lister: &mut dyn TestLister,
) -> Result<Reason<'a>, SelectError>
    ensures { TellsAmong (IsReasonOfTest (question_view filters.now) (IsTrue are_given))
        (IsReasonOfBinary (question_view filters.now)) (λ f. Contains on.now f)
        (map binary_view all.entry.now) id.entry.now (option_map (λ t. t.now) test.entry)
        (shown lister.old) result (shown lister.new) }
{
    match binary_with_id(all, id) {
        Some(binary) => of_binary(alloc, on, filters, are_given, binary, test, lister),
        None => Ok(Reason::NoBinary(id)),
    }
}

/// What is to be said of this binary, or of its test.
fn of_binary<'a>(
    alloc: Global,
    on: &FeaturesOn,
    filters: &QuestionFilters,
    are_given: bool,
    binary: &TestBinary<'a>,
    test: Option<&str>,
    lister: &mut dyn TestLister,
) -> Result<Reason<'a>, SelectError>
    ensures { TellsOf (IsReasonOfTest (question_view filters.now) (IsTrue are_given))
        (IsReasonOfBinary (question_view filters.now)) (λ f. Contains on.now f)
        (binary_view binary.entry.now) (option_map (λ t. t.now) test.entry) (shown lister.old)
        result (shown lister.new) }
{
    match first_off(on, binary) {
        Some(feature) => {
            let row = binary.row;
            Ok(Reason::Off(row.id.as_str(), feature))
        }
        None => of_available(alloc, filters, are_given, binary, test, lister),
    }
}

/// The same of one that is available.
fn of_available<'a>(
    alloc: Global,
    filters: &QuestionFilters,
    are_given: bool,
    binary: &TestBinary<'_>,
    test: Option<&str>,
    lister: &mut dyn TestLister,
) -> Result<Reason<'a>, SelectError>
    ensures { TellsOfAvailable (IsReasonOfTest (question_view filters.now) (IsTrue are_given))
        (IsReasonOfBinary (question_view filters.now)) (binary_view binary.now)
        (option_map (λ t. t.now) test.entry) (shown lister.old) result (shown lister.new) }
{
    match test {
        Some(name) => {
            let names = listing_of(alloc, binary, lister)?;
            let reason = reason_of_test(alloc, filters, are_given, binary, &names, name)?;
            Ok(Reason::Test(reason))
        }
        None => {
            let reason = reason_of_binary(alloc, filters, binary)?;
            Ok(Reason::Binary(reason))
        }
    }
}

/// The tests that the binary lists.
fn listing_of(
    alloc: Global,
    binary: &TestBinary<'_>,
    lister: &mut dyn TestLister,
) -> Result<Listing, SelectError>
    ensures { ListsOne (shown lister.old) (binary_view binary.now).id result (shown lister.new) }
{
    let id = String::from_str(alloc, binary.id.as_str())?;
    match ask_each(alloc, &[binary.info()], lister) {
        Ok(mut listings) => Ok(listings.swap_remove(0)),
        Err(AskError::Lister(_)) => Err(SelectError::Lister(id)),
        Err(AskError::BadListing(_, fault)) => Err(SelectError::BadListing(id, fault)),
        Err(AskError::Memory) => Err(SelectError::Memory),
    }
}

/// Why the test is chosen or not, where the binary lists these.
fn reason_of_test(
    alloc: Global,
    filters: &QuestionFilters,
    are_given: bool,
    binary: &TestBinary<'_>,
    names: &[String],
    name: &str,
) -> Result<TestReason, AllocError>
    ensures { IfOk result (λ why. IsReasonOfTest (question_view filters.now) (IsTrue are_given)
        (binary_view binary.now) (texts names.now) name.now why) }
{
    if !contains_text(names, name) {
        return Ok(TestReason::NotListed);
    }
    let name = TestCaseName::new(String::from_str(alloc, name)?);
    let test = TestQuery {
        binary_query: binary.query(),
        test_name: &name,
    };
    reason_of_listed(alloc, filters, are_given, &test)
}

/// The same of a test that is listed.
fn reason_of_listed(
    alloc: Global,
    filters: &QuestionFilters,
    are_given: bool,
    test: &TestQuery<'_>,
) -> Result<TestReason, AllocError>
    ensures { IfOk result (λ why. IsReasonOfListed (question_view filters.now) (IsTrue are_given)
        (test_of test.now) why) }
{
    if !default_holds(alloc, filters, test)? {
        return Ok(TestReason::DefaultFilter);
    }
    let first = first_that_holds(alloc, filters, test)?;
    Ok(match first {
        Some(place) => chosen_by(are_given, place),
        None => TestReason::NoFilter,
    })
}

/// That the text at the place is the first that holds; where no text is given, the filter that stands
/// for none is no text.
fn chosen_by(are_given: bool, place: usize) -> TestReason
    ensures { result ≡ chosen_by are_given place }
{
    if are_given {
        TestReason::ChosenBy(place)
    } else {
        TestReason::Chosen
    }
}

/// Why the binary is asked for its tests or not.
fn reason_of_binary(
    alloc: Global,
    filters: &QuestionFilters,
    binary: &TestBinary<'_>,
) -> Result<BinaryReason, AllocError>
    ensures { IfOk result (λ why. IsReasonOfBinary (question_view filters.now)
        (binary_view binary.now) why) }
{
    let query = binary.query();
    if !default_may_pass(alloc, filters, &query)? {
        return Ok(BinaryReason::DefaultFilter);
    }
    if !some_may_pass(alloc, filters, &query)? {
        return Ok(BinaryReason::NoFilter);
    }
    Ok(BinaryReason::Asked)
}
