//! The filters of a record's groups, and its default filter.

ghost use Rattle.std.specs.Prelude.{◌≡◌, map};
ghost use Rattle.nextest_filter_evaluation.specs.Compiled.{compiled_of};
ghost use Rattle.test_select_checks.specs.CompiledViews.{filters_view, group_view};
ghost use Rattle.test_select_checks.specs.Compiling.{AnswersFilters, CompilesDefault, CompilesGroup, CompilesGroups};
ghost use Rattle.test_select_checks.specs.Contexts.{HasNamesOf};
ghost use Rattle.test_select_checks.specs.Errors.{record_error_of};
ghost use Rattle.test_select_checks.specs.RecordFilters.{AreCompiledOf};

use crate::filter_parts::{GroupFilter, RecordFilters};
use crate::filter_texts::compiled_text;
use crate::record_error::RecordError;
use nextest_filtering::errors::FiltersetError;
use nextest_filtering::{
    CompiledExpr, EvalContext, FiltersetKind, FiltersetLeaf, KnownGroups, ParseContext,
};
use std::alloc::Global;
use workspace_record::{GroupRecord, WorkspaceRecord};

impl GroupFilter {
    /// The group's name.
    pub fn name(&self) -> &str
        ensures name { result.now ≡ (group_view self.now).0 }
    {
        self.name.as_str()
    }

    /// The group's filter.
    pub fn filter(&self) -> &CompiledExpr
        ensures filter { compiled_of result.now ≡ (group_view self.now).1 }
    {
        &self.filter
    }
}

impl RecordFilters {
    /// The groups in order.
    pub fn groups(&self) -> &[GroupFilter]
        ensures groups { map group_view result.now ≡ (filters_view self.now).groups }
    {
        &self.groups
    }

    /// What filters are asked with: the default filter of the record.
    pub fn eval_context(&self) -> EvalContext<'_>
        ensures default { compiled_of result.default_filter.now ≡ (filters_view self.now).default }
    {
        EvalContext {
            default_filter: &self.default_filter,
        }
    }
}

/// The filters of the record, compiled over a context with its names; or the first one that is
/// refused, with its faults.
pub fn record_filters(
    alloc: Global,
    record: &WorkspaceRecord,
    cx: &ParseContext<'_>,
) -> Result<RecordFilters, RecordError>
    requires names { HasNamesOf record.now cx.now }
    ensures filters { AnswersFilters (λ f. AreCompiledOf cx.now record.now (filters_view f))
        record.now result }
{
    let groups = group_filters(alloc, &record.groups, cx)?;
    let default_filter = default_filter(alloc, record, cx)?;
    Ok(RecordFilters {
        groups,
        default_filter,
    })
}

fn group_filters(
    alloc: Global,
    groups: &[GroupRecord],
    cx: &ParseContext<'_>,
) -> Result<Vec<GroupFilter>, RecordError>
    ensures { CompilesGroups cx.now groups.now result }
{
    let mut filters = Vec::new(alloc);
    for (place, group) in groups.iter().enumerate() {
        filters.push(group_filter(alloc, place, group, cx)?)?;
    }
    Ok(filters)
}

/// The filter of the group, which stands at the place.
fn group_filter(
    alloc: Global,
    place: usize,
    group: &GroupRecord,
    cx: &ParseContext<'_>,
) -> Result<GroupFilter, RecordError>
    ensures { CompilesGroup cx.now place group.now result }
{
    let name = String::from_str(alloc, group.name.as_str())?;
    let kind = FiltersetKind::OverrideFilter;
    match compiled_text(
        alloc,
        group.filter.as_str(),
        cx,
        kind,
        &KnownGroups::Unavailable,
    ) {
        Ok(filter) => Ok(GroupFilter { name, filter }),
        Err(refused) => Err(refused_at(place, refused)),
    }
}

/// The default filter; that of all tests where the record has none.
fn default_filter(
    alloc: Global,
    record: &WorkspaceRecord,
    cx: &ParseContext<'_>,
) -> Result<CompiledExpr, RecordError>
    ensures { CompilesDefault cx.now record.now result }
{
    let Some(text) = &record.default_filter else {
        return Ok(CompiledExpr::Set(FiltersetLeaf::All));
    };
    let kind = FiltersetKind::DefaultFilter;
    match compiled_text(alloc, text.as_str(), cx, kind, &KnownGroups::Unavailable) {
        Ok(filter) => Ok(filter),
        Err(refused) => Err(refused_at(record.groups.len(), refused)),
    }
}

fn refused_at(place: usize, refused: FiltersetError) -> RecordError
    ensures { result ≡ record_error_of place refused }
{
    match refused {
        FiltersetError::Parse(refused) => {
            RecordError::Filter {
                place,
                errors: refused.errors,
            }
        }
        FiltersetError::Memory => RecordError::Memory,
    }
}
