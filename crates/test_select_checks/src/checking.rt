//! Whether a record keeps the rules.

ghost use Rattle.std.specs.Prelude.{IfErr};
ghost use Rattle.test_select_checks.specs.Checks.{IsChecked};
ghost use Rattle.test_select_checks.specs.Compiling.{AnswersFilters, ChecksFilters};
ghost use Rattle.test_select_checks.specs.Contexts.{IsDeclaredGraph};
ghost use Rattle.test_select_checks.specs.Errors.{RefusesGraph};

use crate::checked_record::CheckedRecord;
use crate::compiled_filters::record_filters;
use crate::graph::{filter_context, graph_of};
use crate::record_error::RecordError;
use guppy_package_graph::PackageGraph;
use std::alloc::Global;
use workspace_record::WorkspaceRecord;

/// Tests each rule in turn, the one on filters last. Of several broken rules the first one is answered,
/// at its first place, and of a refused filter all faults.
pub fn check_record(alloc: Global, record: &WorkspaceRecord) -> Result<(), RecordError>
    ensures checked { IsChecked record.now result }
{
    match CheckedRecord::of(alloc, record) {
        Ok(_) => Ok(()),
        Err(refused) => Err(refused),
    }
}

/// The package graph of the record, or the first rule that it breaks.
pub fn declared_graph(alloc: Global, record: &WorkspaceRecord) -> Result<PackageGraph, RecordError>
    ensures graph { AnswersFilters (IsDeclaredGraph record.now) record.now result }
    ensures refused { IfErr result (RefusesGraph record.now) }
{
    let graph = graph_of(alloc, record)?;
    Ok(graph)
}

/// Whether the filters of the record, whose packages have this graph, are accepted.
pub(crate) fn check_filters(
    alloc: Global,
    record: &WorkspaceRecord,
    graph: &PackageGraph,
) -> Result<(), RecordError>
    requires declared { IsDeclaredGraph record.now graph.now }
    ensures { ChecksFilters record.now result }
{
    let cx = filter_context(alloc, graph, graph, &[])?;
    match record_filters(alloc, record, &cx) {
        Ok(_) => Ok(()),
        Err(refused) => Err(refused),
    }
}
