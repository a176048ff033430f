//! Asking for the tests of the planned binaries, and choosing from the answers.

ghost use Rattle.std.specs.Prelude.{◌≡◌, ◌∷◌, ◌++◌, [], IfOk, OnOk, map, string_bytes};
ghost use Rattle.std.specs.List.Sorted.{IsStrictlySortedBy};
ghost use Rattle.list_facts.specs.Ascending.{text_cmp};
ghost use Rattle.list_facts.specs.Texts.{texts, pair_of};
ghost use Rattle.nextest_binaries.specs.Asking.{ListsEach};
ghost use Rattle.nextest_binaries.specs.Listers.{Shown, unasked};
ghost use Rattle.test_select_rules.specs.BinaryView.{binary_view};
ghost use Rattle.test_select_tests.specs.Choosing.{AreListed, BlamesAt, BlamesUnlisted, CarriesOut, IsTestOf, ids_of};
ghost use Rattle.test_select_tests.specs.Kept.{Adds};
ghost use Rattle.test_select_tests.specs.Passing.{ArePassing, IsPassing};
ghost use Rattle.test_select_tests.specs.Plans.{PassesIn};
ghost use Rattle.nextest_binaries.specs.Queries.{Binary};
ghost use Rattle.nextest_filter_evaluation.specs.Questions.{lent_of, lent_searches, ready_view};
ghost use Rattle.test_select_tests.specs.QuestionFilters.{CompiledQuestion, IsReadyFor, lent_question, question_view};
ghost use Rattle.regex.specs.Strings.{matcher_pattern};
ghost use Rattle.test_select_rules.specs.Told.{told_by, told_of};

use crate::ascending_pairs::ascending_pairs;
use crate::lending::lent_filters;
use crate::plan::Plan;
use crate::selection::Selection;
use nextest_binaries::{
    AskError, BinaryInfo, Listing, TestLister, ask_each, names_ascend, take_each,
};
use nextest_filter_evaluation::{LentFilters, ReadyFilters};
use regex::Matcher;
use std::alloc::{AllocError, Global};
use std::collections::BTreeMap;
use test_select_checks::SelectError;
use test_select_rules::binaries::TestBinary;

pub(crate) fn ask_and_choose(
    alloc: Global,
    plan: &Plan<'_>,
    lister: &mut dyn TestLister,
) -> Result<Selection, SelectError>
    ensures { CarriesOut (PassesIn (question_view plan.now.filters))
        (map binary_view plan.now.asked.items) (shown lister.old) result (shown lister.new) }
{
    let ids = ids(alloc, &plan.asked)?;
    let infos = infos(alloc, &plan.asked)?;
    let listings = ask_each(alloc, &infos, lister);
    choose_from(alloc, plan, ids, listings)
}

/// What `ask_and_choose` comes to by a lister over these listings, which are taken over. A binary is
/// blamed only if none is its.
pub(crate) fn take_and_choose(
    alloc: Global,
    plan: &Plan<'_>,
    mut listings: BTreeMap<String, Listing>,
) -> Result<Selection, SelectError>
    requires apart { IsStrictlySortedBy text_cmp (ids_of (map binary_view plan.now.asked.items)) }
    ensures carries { (after : Shown) × CarriesOut (PassesIn (question_view plan.now.filters))
        (map binary_view plan.now.asked.items) (unasked listings) result after }
    ensures missing { BlamesUnlisted listings result }
{
    let ids = ids(alloc, &plan.asked)?;
    let taken = take_each(alloc, &ids, &mut listings);
    choose_from(alloc, plan, ids, taken)
}

/// The selection from the listings of the planned binaries, which have these ids; or the failure, with
/// the id of the binary that is blamed.
fn choose_from(
    alloc: Global,
    plan: &Plan<'_>,
    mut ids: Vec<String>,
    listings: Result<Vec<Listing>, AskError>,
) -> Result<Selection, SelectError>
    requires ids { texts ids.items ≡ ids_of (map binary_view plan.now.asked.items) }
    requires listed { (old : Shown) × (new : Shown) × ListsEach old (texts ids.items) listings new }
    ensures carries { (old : Shown) → (new : Shown) → ListsEach old (texts ids.items) listings new
        → CarriesOut (PassesIn (question_view plan.now.filters))
        (map binary_view plan.now.asked.items) old result new }
    ensures blames { BlamesAt (texts ids.items) listings result }
{
    match listings {
        Ok(listings) => Ok(Selection::new(choose(alloc, plan, listings)?, ids)),
        Err(AskError::Lister(place)) => Err(SelectError::Lister(ids.swap_remove(place))),
        Err(AskError::BadListing(place, fault)) => {
            Err(SelectError::BadListing(ids.swap_remove(place), fault))
        }
        Err(AskError::Memory) => Err(SelectError::Memory),
    }
}

/// What the lister is told of each binary.
fn infos<'a>(alloc: Global, asked: &'a [TestBinary<'_>]) -> Result<Vec<BinaryInfo<'a>>, AllocError>
    ensures told { IfOk result (λ v. map told_by v.items
        ≡ map told_of (map binary_view asked.entry.now)) }
    ensures ids { IfOk result (λ v. map (λ b. b.id.now) v.items
        ≡ ids_of (map binary_view asked.entry.now)) }
{
    let mut infos: Vec<BinaryInfo<'a>> = Vec::new(alloc);
    for binary in asked {
        infos.push(binary.info())?;
    }
    Ok(infos)
}

/// The tests of which the filters hold, each under its binary's id. Names are moved, and none is copied.
fn choose(
    alloc: Global,
    plan: &Plan<'_>,
    listings: Vec<Listing>,
) -> Result<Vec<(String, String)>, AllocError>
    ensures { IfOk result (λ v. AreListed (PassesIn (question_view plan.now.filters))
        plan.now.asked.items listings.items (map pair_of v.items)) }
{
    let filters = lent_filters(alloc, &plan.filters)?;
    let mut searchers = filters.searchers(alloc)?;
    let mut chosen = Vec::new(alloc);
    for (binary, names) in plan.asked.iter().zip(listings) {
        push_chosen(alloc, &filters, &mut searchers, binary, names, &mut chosen)?;
    }
    ascending_pairs(chosen)
}

fn push_chosen<'f>(
    alloc: Global,
    filters: &LentFilters<'f>,
    searchers: &mut [Matcher<'f>],
    binary: &TestBinary<'_>,
    names: Listing,
    chosen: &mut Vec<(String, String)>,
) -> Result<(), AllocError>
    requires patterns { map matcher_pattern searchers.old ≡ lent_searches (lent_of filters.now) }
    ensures added { (q : CompiledQuestion) → lent_of filters.now ≡ lent_question q
        → OnOk result (Adds (IsTestOf (PassesIn q) (binary_view binary.now) names.items)
        (map pair_of chosen.old.items) (map pair_of chosen.new.items)) }
    ensures same { map matcher_pattern searchers.new ≡ map matcher_pattern searchers.old }
{
    let ready = ReadyFilters::new(alloc, filters, binary.query())?;
    let passing = passing_names(alloc, &ready, searchers, names)?;
    push_tests(alloc, binary.id.as_str(), passing, chosen)
}

/// Those of the names of which the filters hold, ascending. Binaries are planned in the order of their
/// ids, so what is chosen is then ascending as it is made.
fn passing_names<'f>(
    alloc: Global,
    ready: &ReadyFilters<'f>,
    searchers: &mut [Matcher<'f>],
    names: Listing,
) -> Result<Listing, AllocError>
    ensures passing { (q : CompiledQuestion) (b : Binary)
        → IsReadyFor (map matcher_pattern searchers.old) q b (ready_view ready.now)
        → IfOk result (λ v. ArePassing q b (texts names.items) (texts v.items)) }
    ensures same { map matcher_pattern searchers.new ≡ map matcher_pattern searchers.old }
{
    let mut passing = Vec::new(alloc);
    for name in names {
        push_if_passing(ready, searchers, name, &mut passing)?;
    }
    if names_ascend(&passing) {
        return Ok(passing);
    }
    passing.sort()?;
    Ok(passing)
}

/// Adds the name if the filters hold of the test.
fn push_if_passing<'f>(
    ready: &ReadyFilters<'f>,
    searchers: &mut [Matcher<'f>],
    name: String,
    passing: &mut Listing,
) -> Result<(), AllocError>
    ensures added { (q : CompiledQuestion) (b : Binary)
        → IsReadyFor (map matcher_pattern searchers.old) q b (ready_view ready.now)
        → OnOk result (Adds (IsPassing q b (string_bytes name ∷ []))
        (texts passing.old.items) (texts passing.new.items)) }
    ensures same { map matcher_pattern searchers.new ≡ map matcher_pattern searchers.old }
{
    if ready.hold(searchers, name.as_str()) {
        passing.push(name)?;
    }
    Ok(())
}

/// Adds the tests with these names, each under the binary's id.
fn push_tests(
    alloc: Global,
    id: &str,
    names: Listing,
    chosen: &mut Vec<(String, String)>,
) -> Result<(), AllocError>
    ensures { OnOk result (map pair_of chosen.new.items
        ≡ map pair_of chosen.old.items ++ map (λ name. (id.now, string_bytes name)) names.items) }
{
    for name in names {
        push_test(alloc, id, name, chosen)?;
    }
    Ok(())
}

fn push_test(
    alloc: Global,
    id: &str,
    name: String,
    chosen: &mut Vec<(String, String)>,
) -> Result<(), AllocError>
    ensures { OnOk result (map pair_of chosen.new.items
        ≡ map pair_of chosen.old.items ++ (id.now, string_bytes name) ∷ []) }
{
    let id = String::from_str(alloc, id)?;
    chosen.push((id, name))?;
    Ok(())
}

/// The ids of the binaries, in their order.
pub(crate) fn ids(alloc: Global, asked: &[TestBinary<'_>]) -> Result<Vec<String>, AllocError>
    ensures { IfOk result (λ v. texts v.items ≡ ids_of (map binary_view asked.now)) }
{
    let mut ids = Vec::new(alloc);
    for binary in asked {
        ids.push(String::from_str(alloc, binary.id.as_str())?)?;
    }
    Ok(ids)
}
