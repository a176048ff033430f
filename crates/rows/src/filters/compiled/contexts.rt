//! Contexts, as rows tell of them.

use crate::ids::{ids_in, lent};
use guppy_package_graph::{PackageGraph, PackageId};
use nextest_filtering::ParseContext;
use row_program::{Row, RowFault};
use std::alloc::Global;

/// The context of the packages under `context`, in which the features under `on` are said to be on; of
/// the members where there are no packages.
pub(crate) fn context_in<'g>(
    alloc: Global,
    row: Row<'_>,
    graph: &'g PackageGraph,
) -> Result<ParseContext<'g>, RowFault> {
    let ids = ids_in(alloc, row, "context")?;
    if ids.is_empty() {
        return Ok(ParseContext::new(alloc, graph)?);
    }
    let features = features_in(alloc, row)?;
    context_of(alloc, graph, &ids, &features)
}

/// The features under `on`, which texts such as `util/simd` name.
fn features_in(alloc: Global, row: Row<'_>) -> Result<Vec<(PackageId, String)>, RowFault> {
    let mut features = Vec::new(alloc);
    for text in &row.texts(alloc, "on")? {
        let Some((package, name)) = text.split_once('/') else {
            return Err(RowFault::Key("on"));
        };
        let id = PackageId::new(String::from_str(alloc, package)?);
        features.push((id, String::from_str(alloc, name)?))?;
    }
    Ok(features)
}

fn context_of<'g>(
    alloc: Global,
    graph: &'g PackageGraph,
    ids: &[PackageId],
    on: &[(PackageId, String)],
) -> Result<ParseContext<'g>, RowFault> {
    let lent = lent(alloc, ids)?;
    match graph.resolve_ids(alloc, &lent) {
        Ok(set) if on.is_empty() => Ok(ParseContext::with_packages(alloc, graph, &set)?),
        Ok(set) => Ok(ParseContext::with_features(alloc, graph, &set, on)?),
        Err(error) => Err(RowFault::Refused(format!(in alloc; "{error}")?)),
    }
}
