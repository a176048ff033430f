//! Graphs of the records that rows are run on.

use guppy_package_graph::{PackageGraph, PackageGraphError};
use row_program::{Row, RowFault, record_under};
use std::alloc::Global;

/// The package graph of the record under `record`, or why there is none.
pub(crate) fn graph_under(
    alloc: Global,
    row: Row<'_>,
) -> Result<Result<PackageGraph, PackageGraphError>, RowFault> {
    let record = record_under(alloc, row)?;
    let (packages, links, workspace) = (record.packages, record.links, record.workspace);
    Ok(PackageGraph::from_records(alloc, packages, links, workspace))
}
