//! Rows of the nodes and edges of feature graphs.

use crate::features::nodes::texts::{tell_nodes_and_edges, tell_warnings};
use crate::records::graph_under;
use guppy_feature_nodes::{FeatureGraphData, FeatureName};
use guppy_package_graph::PackageGraph;
use row_program::{Answers, Row, RowFault, RowRunner};
use std::alloc::Global;

/// Rows of feature graphs. A row has a `record`, and a feature to `find` by a package and a name.
#[derive(Drop)]
pub(crate) struct NodeRows;

impl RowRunner for NodeRows {
    fn inputs(&self) -> &'static [&'static str] {
        &["record", "find"]
    }

    fn run_row(
        &mut self,
        alloc: Global,
        row: Row<'_>,
        answers: &mut Answers,
    ) -> Result<(), RowFault> {
        match graph_under(alloc, row)? {
            Ok(graph) => tell_graph(alloc, row, &graph, answers),
            Err(error) => {
                answers.show("refused", &error);
                Ok(())
            }
        }
    }
}

fn tell_graph(
    alloc: Global,
    row: Row<'_>,
    graph: &PackageGraph,
    answers: &mut Answers,
) -> Result<(), RowFault> {
    let words = row.texts(alloc, "find")?;
    let data = FeatureGraphData::build(alloc, graph)?;
    tell_nodes_and_edges(&data, answers);
    tell_warnings(&data, answers);
    answers.show("counts", &graph.package_count());
    answers.part(" packages, ", &data.feature_count());
    answers.part(" nodes, ", &data.link_count());
    answers.add(&" edges");
    if let [package, name] = words.as_slice() {
        let feature = FeatureName::named(*package, *name);
        answers.show("found", &data.contains(feature));
        answers.part(", ", &data.number_of(feature));
    }
    Ok(())
}
