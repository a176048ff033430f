//! Rows of graphs of offers.

ghost use Rattle.std.specs.Prelude.{◌≡◌, ◌<◌, All};

use crate::numbers::lists::{direction_in, flags_in, nodes_in};
use crate::numbers::offers::edge_lists::graph_in;
use crate::numbers::offers::manner::{Manner, manner_in};
use crate::numbers::offers::walked::walk_in;
use numbered_graph::Direction;
use numbered_offers::OfferGraph;
use row_program::{Answers, Row, RowFault, RowRunner};
use std::alloc::Global;

/// Rows of graphs of offers. A row has `nodes`, `edges` and `starts`, and where they are asked for
/// `direction`, `accepts` (the manner in which offers are answered), `refused` and `refused_halves`
/// (edges that a table of verdicts refuses, or whose optional halves it refuses).
#[derive(Drop)]
pub(crate) struct OfferRows;

impl RowRunner for OfferRows {
    fn inputs(&self) -> &'static [&'static str] {
        &[
            "nodes",
            "edges",
            "starts",
            "direction",
            "accepts",
            "refused",
            "refused_halves",
        ]
    }

    fn run_row(
        &mut self,
        alloc: Global,
        row: Row<'_>,
        answers: &mut Answers,
    ) -> Result<(), RowFault> {
        let graph = graph_in(alloc, row)?;
        tell_graph(alloc, row, &graph, answers)
    }
}

fn tell_graph(
    alloc: Global,
    row: Row<'_>,
    graph: &OfferGraph,
    answers: &mut Answers,
) -> Result<(), RowFault> {
    let starts = nodes_in(alloc, row, graph.node_count(), "starts")?;
    let direction = direction_in(row);
    let manner = manner_in(row);
    tell_walk(
        alloc,
        graph,
        &starts,
        direction,
        manner,
        ("run", "included"),
        answers,
    );
    let others = flags_in(alloc, row, graph.edges().len(), "refused")?;
    let halves = flags_in(alloc, row, graph.edges().len(), "refused_halves")?;
    let table = Manner::Table {
        others: &others,
        halves: &halves,
    };
    tell_walk(
        alloc,
        graph,
        &starts,
        direction,
        table,
        ("table_run", "least"),
        answers,
    );
    Ok(())
}

/// Tells the offers of a walk with their answers, and what it reached, each under its key.
fn tell_walk(
    alloc: Global,
    graph: &OfferGraph,
    starts: &[usize],
    direction: Direction,
    manner: Manner<'_>,
    keys: (&'static str, &'static str),
    answers: &mut Answers,
)
    requires starts { All (λ v. v < graph.now.nodes) starts.now }
{
    answers.begin(keys.0);
    let included = walk_in(alloc, graph, starts, direction, manner, answers);
    match included {
        Ok(set) => {
            answers.begin(keys.1);
            for node in 0..set.node_count() {
                if set.contains(node) {
                    answers.part(" ", &node);
                }
            }
        }
        Err(refused) => answers.keep(keys.1, Err(refused)),
    }
}
