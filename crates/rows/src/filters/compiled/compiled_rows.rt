//! Rows of compiled filters.

ghost use Rattle.std.specs.Prelude.{◌≡◌, IfOk};
ghost use Rattle.nextest_filter_tokens.specs.declared.filterset_kind.FiltersetKind.TheVariants as kinds;
ghost use Rattle.nextest_filter_evaluation.specs.Groups.{AreKnown};

use crate::filters::compiled::contexts::context_in;
use crate::filters::compiled::queries::tell_answers;
use crate::filters::compiled::row_groups::tell_groups;
use crate::filters::spans::add_span;
use crate::records::graph_under;
use guppy_package_graph::PackageGraph;
use nextest_filtering::errors::{FiltersetError, ParseSingleError};
use nextest_filtering::{
    CompiledExpr, EvalContext, FILTERSET_REFERENCE_MD, Filterset, FiltersetKind, KnownGroups,
    ParseContext,
};
use row_program::{Answers, Row, RowFault, RowRunner};
use serde_json::Value;
use std::alloc::Global;
use std::collections::BTreeSet;

/// Rows of one filter each: its `text` and its `kind` (test, archive, override or default), over the
/// `record`, and over the packages under `context`, with the features under `on`; `groups` are known (to filters that are not of
/// tests, only where they stand there), and `default` is the filter that stands for `default()`, all tests where there is none. Asked are the `owners`, `binary_names`, `binary_kinds`, `platforms` or
/// `test_names` that are listed, with `owner`, `binary_name`, `binary_kind`, `built_for` and
/// `test_name` for the rest, of tests in the group `member_of`. Told is besides whether a group is
/// called `group_name`, and whether the reference of filters names what stands under `word`.
#[derive(Drop)]
pub(crate) struct CompiledRows;

impl RowRunner for CompiledRows {
    fn inputs(&self) -> &'static [&'static str] {
        &[
            "record",
            "text",
            "kind",
            "context",
            "on",
            "groups",
            "default",
            "owners",
            "binary_names",
            "binary_kinds",
            "platforms",
            "test_names",
            "owner",
            "binary_name",
            "binary_kind",
            "built_for",
            "test_name",
            "member_of",
            "group_name",
            "word",
        ]
    }

    fn run_row(
        &mut self,
        alloc: Global,
        row: Row<'_>,
        answers: &mut Answers,
    ) -> Result<(), RowFault> {
        match graph_under(alloc, row)? {
            Ok(graph) => tell_graph(alloc, row, &graph, answers),
            Err(error) => Err(RowFault::Refused(format!(in alloc; "{error}")?)),
        }
    }
}

fn tell_graph(
    alloc: Global,
    row: Row<'_>,
    graph: &PackageGraph,
    answers: &mut Answers,
) -> Result<(), RowFault> {
    let cx = context_in(alloc, row, graph)?;
    let kind = match row.get("kind").and_then(Value::as_str) {
        Some("archive") => FiltersetKind::TestArchive,
        Some("override") => FiltersetKind::OverrideFilter,
        Some("default") => FiltersetKind::DefaultFilter,
        _ => FiltersetKind::Test,
    };
    let groups = groups_in(alloc, row, kind)?;
    if let FiltersetKind::Test = kind {
        tell_groups(alloc, row, &groups, answers)?;
    }
    match row.get("default").and_then(Value::as_str) {
        Some(text) => tell_with_default(alloc, row, &cx, kind, &groups, text, answers),
        None => tell_filter(alloc, row, &cx, kind, &groups, &CompiledExpr::ALL, answers),
    }
}

/// The groups under `groups`; where none stand there, they are unavailable to all filters but those of tests.
fn groups_in(alloc: Global, row: Row<'_>, kind: FiltersetKind) -> Result<KnownGroups, RowFault>
    ensures known { kind ≡ kinds.Test → IfOk result AreKnown }
{
    if !matches!(kind, FiltersetKind::Test) && row.get("groups").is_none() {
        return Ok(KnownGroups::Unavailable);
    }
    let mut custom_groups = BTreeSet::new(alloc);
    for name in &row.texts(alloc, "groups")? {
        custom_groups.insert(String::from_str(alloc, *name)?)?;
    }
    Ok(KnownGroups::Known { custom_groups })
}

/// Tells of the row's filter where the one of this text stands for `default()`.
fn tell_with_default(
    alloc: Global,
    row: Row<'_>,
    cx: &ParseContext<'_>,
    kind: FiltersetKind,
    groups: &KnownGroups,
    text: &str,
    answers: &mut Answers,
) -> Result<(), RowFault>
    requires known { kind ≡ kinds.Test → AreKnown groups.now }
{
    let input = String::from_str(alloc, text)?;
    match Filterset::parse(alloc, input, cx, FiltersetKind::DefaultFilter, groups) {
        Ok(default) => tell_filter(alloc, row, cx, kind, groups, &default.compiled, answers),
        Err(FiltersetError::Parse(_)) => Err(RowFault::Key("default")),
        Err(FiltersetError::Memory) => Err(RowFault::Memory),
    }
}

fn tell_filter(
    alloc: Global,
    row: Row<'_>,
    cx: &ParseContext<'_>,
    kind: FiltersetKind,
    groups: &KnownGroups,
    default: &CompiledExpr,
    answers: &mut Answers,
) -> Result<(), RowFault>
    requires known { kind ≡ kinds.Test → AreKnown groups.now }
{
    let Some(eval) = EvalContext::new(default) else {
        return Err(RowFault::Key("default"));
    };
    let input = String::from_str(alloc, row.text("text")?)?;
    match Filterset::parse(alloc, input, cx, kind, groups) {
        Ok(filter) => tell_parsed(alloc, row, &filter, &eval, answers),
        Err(FiltersetError::Parse(refused)) => {
            tell_faults(&refused.errors, answers);
            Ok(())
        }
        Err(FiltersetError::Memory) => Err(RowFault::Memory),
    }
}

/// Tells what a copy of the filter says: whether it names groups, whether its text may ask for dependencies,
/// and whether it is one leaf that can be told only of a test; whether the reference names the row's `word`;
/// and what it answers.
fn tell_parsed(
    alloc: Global,
    row: Row<'_>,
    filter: &Filterset,
    eval: &EvalContext<'_>,
    answers: &mut Answers,
) -> Result<(), RowFault> {
    let filter = filter.copy(alloc)?;
    answers.begin("faults");
    answers.show("names_groups", &filter.compiled.has_group_matchers());
    answers.show("needs_deps", &Filterset::needs_deps(filter.input.as_str()));
    let is_runtime_only = match &filter.compiled {
        CompiledExpr::Set(leaf) => leaf.is_runtime_only(),
        _ => false,
    };
    answers.show("runtime_only", &is_runtime_only);
    if let Some(word) = row.get("word").and_then(Value::as_str) {
        answers.show("in_reference", &FILTERSET_REFERENCE_MD.contains(word));
    }
    tell_answers(alloc, row, &filter, eval, answers)
}

fn tell_faults(faults: &[ParseSingleError], answers: &mut Answers) {
    answers.begin("faults");
    for fault in faults {
        answers.part("; ", fault);
        if let ParseSingleError::BannedPredicate { reason, .. } = fault {
            answers.part(": ", reason);
        }
        answers.add(&" ");
        add_span(fault.span(), answers);
    }
}
