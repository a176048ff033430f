//! The package graph with just the lines that are on.

ghost use Rattle.std.specs.Prelude.{◌≡◌, ◌++◌, ◌<◌, Some, IfOk, OnOk, filter, length, map, slice_get};
ghost use Rattle.guppy_package_rules.specs.Kept.{AreKept};
ghost use Rattle.guppy_package_table.specs.Tables.{IsTableOf};
ghost use Rattle.test_select_features.specs.LinesOn.{is_link_on, link_on, links_on, with_lines_on};

use crate::indexed_features::IndexedFeatures;
use crate::lines_on::places_on;
use guppy_package_graph::PackageGraph;
use std::alloc::{AllocError, Global};
use test_select_rules::FeaturesOn;
use workspace_record::{LinkRecord, PlatformTable};

// Made of the graph, not of the record: `PackageGraph::with_links` shares the rows of packages and of the
// workspace by a count of owners, and makes anew what depends on links alone.
/// The graph of the same packages with exactly the lines that are on where these features are: those
/// that count on the table's platform and whose start is among the features. A link stays where a line
/// of it does. Takes time in proportion to packages, lines and features, and to the logarithm of the
/// features for each line of an optional dependency.
pub fn switched_on(
    alloc: Global,
    graph: &PackageGraph,
    features: &FeaturesOn,
    table: &PlatformTable,
) -> Result<PackageGraph, AllocError>
    ensures kept { IfOk result (λ g. AreKept g.packages g.links g.workspace) }
    ensures table { IfOk result (IsTableOf graph.now.packages
        (links_on graph.now features.now table.now) graph.now.workspace) }
{
    let indexed = IndexedFeatures::of(alloc, features)?;
    let links = links_on(alloc, graph, &indexed, table)?;
    graph.with_links(alloc, links)
}

/// The rows of the links that are on, each with just its lines that are.
fn links_on(
    alloc: Global,
    graph: &PackageGraph,
    features: &IndexedFeatures<'_>,
    table: &PlatformTable,
) -> Result<Vec<LinkRecord>, AllocError>
    ensures links { IfOk result (λ v. v.items ≡ links_on graph.now features.now table.now) }
    ensures kept { IfOk result (λ v. AreKept graph.now.packages v.items graph.now.workspace) }
{
    let mut links = Vec::new(alloc);
    for (number, row) in graph.link_rows().iter().enumerate() {
        let in_workspace = graph.link_at(number).from().in_workspace();
        push_link_on(alloc, in_workspace, features, table, row, &mut links)?;
    }
    Ok(links)
}

/// Adds the row with just its lines that are on, if there are any.
fn push_link_on(
    alloc: Global,
    in_workspace: bool,
    features: &IndexedFeatures<'_>,
    table: &PlatformTable,
    row: &LinkRecord,
    links: &mut Vec<LinkRecord>,
) -> Result<(), AllocError>
    ensures { OnOk result (links.new.items
        ≡ links.old.items ++ link_on in_workspace features.now table.now row.now) }
{
    let places = places_on(alloc, in_workspace, features, table, row)?;
    if !places.is_empty() {
        links.push(row.copy_some(alloc, &places)?)?;
    }
    Ok(())
}
