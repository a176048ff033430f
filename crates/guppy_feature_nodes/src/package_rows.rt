//! The rows of a package graph's packages, each with its id.

ghost use Rattle.std.specs.Prelude.{◌≡◌, ◌≢◌, AllPairs, IfOk, map};

use guppy_feature_demands::PackageAt;
use guppy_package_graph::PackageGraph;
use std::alloc::{AllocError, Global};

/// The packages' rows, in their order; no two have one id.
pub(crate) fn package_rows<'g>(
    alloc: Global,
    graph: &'g PackageGraph,
) -> Result<Vec<PackageAt<'g>>, AllocError>
    ensures rows { IfOk result (λ v. map (λ at. at.row.now) v.items ≡ graph.entry.now.packages) }
    ensures apart { AllPairs (λ a b. a.id ≢ b.id) graph.entry.now.packages }
{
    let count = graph.package_ids().len();
    let mut rows: Vec<PackageAt<'g>> = Vec::with_capacity(alloc, count)?;
    let mut packages = graph.packages();
    while let Some(metadata) = packages.next() {
        rows.push(PackageAt::new(metadata.id(), metadata.row()))?;
    }
    Ok(rows)
}
