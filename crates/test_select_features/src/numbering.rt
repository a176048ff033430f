//! The links that are on, between the places of packages.

ghost use Rattle.std.specs.Prelude.{◌≡◌, ◌++◌, Some, IfOk, OnOk, slice_get};
ghost use Rattle.guppy_package_rules.specs.Kept.{AreKept};
ghost use Rattle.guppy_package_table.specs.Tables.{firm_flags, links_among};
ghost use Rattle.test_select_features.specs.LinesOn.{link_on_of, links_on};

use crate::indexed_features::IndexedFeatures;
use crate::lines_on::{has_firm_line_on, has_line_on};
use guppy_package_graph::PackageGraph;
use numbered_graph::{Direction, Link};
use std::alloc::{AllocError, Global};
use workspace_record::{LinkRecord, PlatformTable};

/// Links between the places of packages, and for each whether a normal or a build line of it is on.
#[derive(Drop)]
pub(crate) struct NumberedLinks {
    pub links: Vec<Link>,
    pub firm: Vec<bool>,
}

/// The links that are on where these features are, of all rows of links of the graph.
pub(crate) fn numbered_links_on(
    alloc: Global,
    graph: &PackageGraph,
    rows: &[LinkRecord],
    features: &IndexedFeatures<'_>,
    table: &PlatformTable,
) -> Result<NumberedLinks, AllocError>
    requires rows { rows.now ≡ graph.now.links }
    requires kept { AreKept graph.now.packages graph.now.links graph.now.workspace }
    ensures links { IfOk result (λ on. on.links.items
        ≡ links_among graph.now.packages (links_on graph.now features.now table.now)) }
    ensures firm { IfOk result (λ on. on.firm.items
        ≡ firm_flags (links_on graph.now features.now table.now)) }
{
    let mut on = NumberedLinks {
        links: Vec::new(alloc),
        firm: Vec::new(alloc),
    };
    for (number, row) in rows.iter().enumerate() {
        push_link_on(graph, features, table, number, row, &mut on)?;
    }
    Ok(on)
}

/// Adds the link with a number, if a line of it is on.
fn push_link_on(
    graph: &PackageGraph,
    features: &IndexedFeatures<'_>,
    table: &PlatformTable,
    number: usize,
    row: &LinkRecord,
    on: &mut NumberedLinks,
) -> Result<(), AllocError>
    requires row { slice_get graph.now.links number ≡ Some row.now }
    requires kept { AreKept graph.now.packages graph.now.links graph.now.workspace }
    ensures links { OnOk result (on.new.links.items
        ≡ on.old.links.items ++ links_among graph.now.packages
        (link_on_of graph.now features.now table.now row.now)) }
    ensures firm { OnOk result (on.new.firm.items
        ≡ on.old.firm.items ++ firm_flags (link_on_of graph.now features.now table.now row.now)) }
{
    let in_workspace = graph.link_at(number).from().in_workspace();
    if has_line_on(in_workspace, features, table, row) {
        let from = graph.end_of(Direction::Forward, number);
        let to = graph.end_of(Direction::Reverse, number);
        on.links.push(Link { from, to })?;
        on.firm
            .push(has_firm_line_on(in_workspace, features, table, row))?;
    }
    Ok(())
}
