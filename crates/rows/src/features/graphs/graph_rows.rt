//! Rows of feature graphs, and of what is asked of them.

use crate::features::graphs::features::{Asked, ids_of, named_in, read_feature};
use crate::features::graphs::lists::tell_lists;
use crate::features::graphs::resolves::tell_resolves;
use crate::features::graphs::sets::tell_sets;
use crate::records::graph_under;
use guppy_feature_graph::{FeatureGraph, FeatureGraphData, FeatureId};
use guppy_package_graph::PackageGraph;
use row_program::{Answers, Row, RowFault, RowRunner};
use serde_json::Value;
use std::alloc::{AllocError, Global};

/// Rows of feature graphs. A row has a `record`, a feature to `find`, and features to start from
/// (`starts`), a `direction`, what a visitor `accepts` (a word of `Rule`), two sets of features
/// (`one`, `two`), and a `package`.
#[derive(Drop)]
pub(crate) struct GraphRows;

impl RowRunner for GraphRows {
    fn inputs(&self) -> &'static [&'static str] {
        &[
            "record",
            "find",
            "starts",
            "direction",
            "accepts",
            "one",
            "two",
            "package",
        ]
    }

    fn run_row(
        &mut self,
        alloc: Global,
        row: Row<'_>,
        answers: &mut Answers,
    ) -> Result<(), RowFault> {
        match graph_under(alloc, row)? {
            Ok(graph) => tell_graph(alloc, row, &graph, answers),
            Err(error) => {
                answers.show("refused", &error);
                Ok(())
            }
        }
    }
}

fn tell_graph(
    alloc: Global,
    row: Row<'_>,
    graph: &PackageGraph,
    answers: &mut Answers,
) -> Result<(), RowFault> {
    let data = FeatureGraphData::build(alloc, graph)?;
    let features = features_of(alloc, &data)?;
    let asked = Asked {
        graph: FeatureGraph::of(&data),
        features: &features,
    };
    tell_asked(alloc, row, asked, answers)
}

/// The features of a graph, in the order of their numbers.
fn features_of<'g>(
    alloc: Global,
    data: &'g FeatureGraphData<'g>,
) -> Result<Vec<FeatureId<'g>>, AllocError> {
    let mut features = Vec::with_capacity(alloc, data.feature_count())?;
    for node in 0..data.feature_count() {
        features.push(data.feature_at(node))?;
    }
    Ok(features)
}

fn tell_asked(
    alloc: Global,
    row: Row<'_>,
    asked: Asked<'_, '_>,
    answers: &mut Answers,
) -> Result<(), RowFault> {
    let packages = asked.graph.package_graph().package_count();
    let (features, links) = (asked.graph.feature_count(), asked.graph.link_count());
    let warnings = asked.graph.build_warnings().len();
    answers.keep(
        "counts",
        format!(in alloc;
            "{packages} packages, {features} features, {links} links, {warnings} warnings"
        ),
    );
    tell_found(alloc, row, asked.graph, answers)?;
    tell_sets(alloc, row, asked, answers)?;
    let named = named_in(alloc, row, "starts")?;
    let starts = ids_of(alloc, &named)?;
    tell_lists(alloc, row, asked, &starts, answers)?;
    tell_resolves(alloc, row, asked, &starts, answers)
}

/// Tells what the feature under `find` says of itself.
fn tell_found(
    alloc: Global,
    row: Row<'_>,
    graph: FeatureGraph<'_>,
    answers: &mut Answers,
) -> Result<(), RowFault> {
    if let Some(text) = row.get("find").and_then(Value::as_str) {
        let named = read_feature(alloc, text)?;
        answers.show("found", &graph.contains(named.id()));
        match graph.metadata(named.id()) {
            Ok(feature) => {
                answers.part(", ", &feature.feature_id());
                answers.part(" is ", &feature.label());
                answers.part(" of ", feature.package_id());
                answers.part(", called ", &feature.package().name());
            }
            Err(error) => answers.part(", ", &error),
        }
    }
    Ok(())
}
