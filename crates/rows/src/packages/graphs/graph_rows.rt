//! Rows of package graphs.

use crate::packages::graphs::details::tell_package;
use crate::packages::graphs::members::tell_members;
use crate::packages::graphs::resolves::tell_resolves;
use crate::packages::graphs::sets::tell_sets;
use crate::packages::graphs::whole_graph::tell_whole_graph;
use crate::records::graph_under;
use guppy_package_graph::PackageGraph;
use row_program::{Answers, Row, RowFault, RowRunner};
use std::alloc::Global;

/// Rows of graphs. A row has a `record`, and where they are asked for `starts`, `direction` and
/// `refused` (names of links that a closure refuses), `link` (a number), `package`, `target`, `set`,
/// `other`, `wanted`, `unwanted` (names), `paths` and `names`.
#[derive(Drop)]
pub(crate) struct GraphRows;

impl RowRunner for GraphRows {
    fn inputs(&self) -> &'static [&'static str] {
        &[
            "record",
            "starts",
            "direction",
            "refused",
            "link",
            "package",
            "target",
            "set",
            "other",
            "paths",
            "names",
            "wanted",
            "unwanted",
        ]
    }

    fn run_row(
        &mut self,
        alloc: Global,
        row: Row<'_>,
        answers: &mut Answers,
    ) -> Result<(), RowFault> {
        match graph_under(alloc, row)? {
            Ok(graph) => tell_graph(alloc, row, &graph, answers),
            Err(error) => {
                answers.show("built", &error);
                Ok(())
            }
        }
    }
}

fn tell_graph(
    alloc: Global,
    row: Row<'_>,
    graph: &PackageGraph,
    answers: &mut Answers,
) -> Result<(), RowFault> {
    answers.show("built", &graph.package_count());
    answers.part(" packages, ", &graph.link_count());
    answers.add(&" links");
    answers.show("kept", &graph.link_rows().len());
    answers.part(" links, ", &graph.verify().is_ok());
    tell_whole_graph(alloc, graph, answers)?;
    tell_resolves(alloc, row, graph, answers)?;
    tell_sets(alloc, row, graph, answers)?;
    tell_members(alloc, row, graph, answers)?;
    tell_package(alloc, row, graph, answers)
}
