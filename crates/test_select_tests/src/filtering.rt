//! The filters of a question, compiled over what its members need.

ghost use Rattle.std.specs.Prelude.{◌≡◌, ◌∷◌, [], IfOk, map};
ghost use Rattle.guppy_package_table.specs.Tables.{ids_of};
ghost use Rattle.nextest_filter_evaluation.specs.Compiled as compiled;
ghost use Rattle.nextest_filter_evaluation.specs.Compiled.{compiled_of};
ghost use Rattle.nextest_filter_evaluation.specs.Formulas.{leaf};
ghost use Rattle.nextest_filter_evaluation.specs.Groups.{AreKnown};
ghost use Rattle.test_select_checks.specs.CompiledViews.{filters_view};
ghost use Rattle.test_select_checks.specs.RecordFilters.{AreCompiledOf};
ghost use Rattle.test_select_checks.specs.Contexts.{HasNamesOf, IsDeclaredGraph};
ghost use Rattle.test_select_tests.specs.Errors.{text_error_of};
ghost use Rattle.test_select_tests.specs.Filtering.{CompilesGiven, CompilesText, CompilesTexts, Filters};
ghost use Rattle.test_select_tests.specs.Following.{IsFollowedIn};
ghost use Rattle.test_select_tests.specs.NamedFeatures.{AreNamedOn};
ghost use Rattle.nextest_filtering.specs.ContextViews.{listed_as};

use crate::named_features::named_features;
use crate::question_filters::QuestionFilters;
use crate::scope::LinkScope;
use guppy_package_graph::{PackageGraph, PackageId};
use nextest_filtering::errors::FiltersetError;
use nextest_filtering::{CompiledExpr, FiltersetKind, FiltersetLeaf, KnownGroups, ParseContext};
use std::alloc::Global;
use test_select_checks::{
    CheckedRecord, RecordFilters, SelectError, compiled_text, filter_context, known_groups,
    record_filters,
};
use test_select_features::switched_on;
use test_select_rules::FeaturesOn;
use workspace_record::{PlatformTable, WorkspaceRecord};

// Where there is no text, or no default filter, the filter of all tests is made; no text `all()` is read for it.
/// The filters of the record and of the texts. Names are matched over the packages that the members need
/// by declared links, paths follow the links of the scope, and `feature` finds the named features that
/// are on.
pub fn compile_question_filters(
    alloc: Global,
    checked: &CheckedRecord<'_>,
    on: &FeaturesOn,
    table: &PlatformTable,
    scope: LinkScope,
    texts: &[&str],
) -> Result<QuestionFilters, SelectError>
    ensures filters { Filters (λ cx. HasNamesOf checked.now cx
        × IsFollowedIn scope checked.now on.now table.now cx.graph × AreNamedOn on.now cx.on)
        checked.now (map (λ t. t.now) texts.now) result }
{
    let (record, declared) = (checked.record(), checked.graph());
    in_scope(alloc, record, on, table, scope, texts, declared)
}

fn in_scope(
    alloc: Global,
    record: &WorkspaceRecord,
    on: &FeaturesOn,
    table: &PlatformTable,
    scope: LinkScope,
    texts: &[&str],
    declared: &PackageGraph,
) -> Result<QuestionFilters, SelectError>
    requires declared { IsDeclaredGraph record.now declared.now }
    ensures { Filters (λ cx. HasNamesOf record.now cx
        × IsFollowedIn scope record.now on.now table.now cx.graph × AreNamedOn on.now cx.on)
        record.now (map (λ t. t.now) texts.now) result }
{
    let named = named_features(alloc, on)?;
    match scope {
        LinkScope::Declared => filters_along(alloc, record, texts, declared, declared, &named),
        LinkScope::SwitchedOn => {
            let followed = switched_on(alloc, declared, on, table)?;
            filters_along(alloc, record, texts, declared, &followed, &named)
        }
    }
}

/// The same, with paths along the links of one graph, and these features on.
fn filters_along(
    alloc: Global,
    record: &WorkspaceRecord,
    texts: &[&str],
    declared: &PackageGraph,
    followed: &PackageGraph,
    on: &[(PackageId, String)],
) -> Result<QuestionFilters, SelectError>
    requires declared { IsDeclaredGraph record.now declared.now }
    requires same { ids_of followed.now.packages ≡ ids_of declared.now.packages }
    ensures { Filters (λ cx. HasNamesOf record.now cx × (cx.graph ≡ followed.now)
        × (cx.on ≡ map listed_as on.now)) record.now (map (λ t. t.now) texts.now) result }
{
    let cx = filter_context(alloc, declared, followed, on)?;
    filters_in(alloc, record, texts, &cx)
}

/// The same, in a context.
fn filters_in(
    alloc: Global,
    record: &WorkspaceRecord,
    texts: &[&str],
    cx: &ParseContext<'_>,
) -> Result<QuestionFilters, SelectError>
    requires names { HasNamesOf record.now cx.now }
    ensures { Filters (λ x. x ≡ cx.now) record.now (map (λ t. t.now) texts.now) result }
{
    match record_filters(alloc, record, cx) {
        Ok(filters) => with_texts(alloc, record, texts, cx, filters),
        Err(refused) => Err(SelectError::from(refused)),
    }
}

/// The filters of the texts beside those of the record.
fn with_texts(
    alloc: Global,
    record: &WorkspaceRecord,
    texts: &[&str],
    cx: &ParseContext<'_>,
    filters: RecordFilters,
) -> Result<QuestionFilters, SelectError>
    requires compiled { AreCompiledOf cx.now record.now (filters_view filters) }
    ensures { Filters (λ x. x ≡ cx.now) record.now (map (λ t. t.now) texts.now) result }
{
    let groups = known_groups(alloc, record)?;
    let texts = text_filters(alloc, cx, &groups, texts)?;
    Ok(QuestionFilters { texts, filters })
}

fn text_filters(
    alloc: Global,
    cx: &ParseContext<'_>,
    groups: &KnownGroups,
    texts: &[&str],
) -> Result<Vec<CompiledExpr>, SelectError>
    requires known { AreKnown groups.now }
    ensures { CompilesTexts cx.now groups.now (map (λ t. t.now) texts.now) result }
{
    if texts.is_empty() {
        let mut all = Vec::new(alloc);
        all.push(CompiledExpr::Set(FiltersetLeaf::All))?;
        return Ok(all);
    }
    given_filters(alloc, cx, groups, texts)
}

fn given_filters(
    alloc: Global,
    cx: &ParseContext<'_>,
    groups: &KnownGroups,
    texts: &[&str],
) -> Result<Vec<CompiledExpr>, SelectError>
    requires known { AreKnown groups.now }
    ensures { CompilesGiven cx.now groups.now (map (λ t. t.now) texts.now) result }
{
    let mut filters = Vec::new(alloc);
    for (place, text) in texts.iter().enumerate() {
        filters.push(text_filter(alloc, place, *text, cx, groups)?)?;
    }
    Ok(filters)
}

/// The filter of the text, which stands at the place.
fn text_filter(
    alloc: Global,
    place: usize,
    text: &str,
    cx: &ParseContext<'_>,
    groups: &KnownGroups,
) -> Result<CompiledExpr, SelectError>
    requires known { AreKnown groups.now }
    ensures { CompilesText cx.now groups.now place text.now result }
{
    match compiled_text(alloc, text, cx, FiltersetKind::Test, groups) {
        Ok(filter) => Ok(filter),
        Err(refused) => Err(refused_at(place, refused)),
    }
}

fn refused_at(place: usize, refused: FiltersetError) -> SelectError
    ensures { result ≡ text_error_of place refused }
{
    match refused {
        FiltersetError::Parse(refused) => SelectError::Filter(place, refused.errors),
        FiltersetError::Memory => SelectError::Memory,
    }
}
