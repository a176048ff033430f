//! Rows of graphs of numbers.

ghost use Rattle.std.specs.Prelude.{◌≡◌, ◌<◌, length, All};

use crate::numbers::graphs::walked::walk_over;
use crate::numbers::lists::{direction_in, flags_in, members_of, node_count_in, nodes_in};
use numbered_graph::{
    Direction, Graph, Link, NodeSet, are_within, cycles, links_inside, listed_members, listing,
    reach, reach_over, root_nodes,
};
use row_program::{Answers, Row, RowFault, RowRunner};
use serde_json::Value;
use std::alloc::Global;

/// Rows of graphs. A row has `nodes` and `links`, and where they are asked for `starts`, `direction`,
/// `refused` and `loose` (links that are refused, or are not firm), `set` and `other`.
#[derive(Drop)]
pub(crate) struct GraphRows;

impl RowRunner for GraphRows {
    fn inputs(&self) -> &'static [&'static str] {
        &[
            "nodes",
            "links",
            "starts",
            "direction",
            "refused",
            "loose",
            "set",
            "other",
        ]
    }

    fn run_row(
        &mut self,
        alloc: Global,
        row: Row<'_>,
        answers: &mut Answers,
    ) -> Result<(), RowFault> {
        let graph = graph_in(alloc, row)?;
        tell_graph(alloc, row, &graph, answers)
    }
}

/// The graph of a row: `nodes`, and `links` as pairs of numbers.
fn graph_in(alloc: Global, row: Row<'_>) -> Result<Graph, RowFault> {
    let nodes = node_count_in(row)?;
    let mut links = Vec::new(alloc);
    for pair in row.list("links")? {
        let from = pair.get(0).and_then(Value::as_u64);
        let to = pair.get(1).and_then(Value::as_u64);
        let (Some(from), Some(to)) = (from, to) else {
            return Err(RowFault::Key("links"));
        };
        let (from, to) = (from as usize, to as usize);
        links.push(Link { from, to })?;
    }
    if !are_within(nodes, &links) {
        return Err(RowFault::Key("links"));
    }
    Ok(Graph::new(alloc, nodes, links)?)
}

fn tell_graph(
    alloc: Global,
    row: Row<'_>,
    graph: &Graph,
    answers: &mut Answers,
) -> Result<(), RowFault> {
    let starts = nodes_in(alloc, row, graph.node_count(), "starts")?;
    let accepted = flags_in(alloc, row, graph.links().len(), "refused")?;
    tell_reach(alloc, graph, &starts, direction_in(row), &accepted, answers);
    let firm = flags_in(alloc, row, graph.links().len(), "loose")?;
    tell_order(alloc, row, graph, &listing(alloc, graph, &firm)?, answers)
}

fn tell_reach(
    alloc: Global,
    graph: &Graph,
    starts: &[usize],
    direction: Direction,
    accepted: &[bool],
    answers: &mut Answers,
)
    requires starts { All (λ v. v < graph.now.nodes) starts.now }
    requires accepted { length accepted.now ≡ length graph.now.links }
{
    let reached = reach(alloc, graph, starts, direction);
    answers.list("reached", members_of(alloc, reached));
    let reached = reach_over(alloc, graph, starts, direction, accepted);
    answers.list("reached_by_accepted", members_of(alloc, reached));
    let mut shown = Vec::new(alloc);
    let included = walk_over(alloc, graph, starts, direction, accepted, &mut shown);
    answers.list("included", members_of(alloc, included));
    shown.sort_unstable();
    answers.list("shown", Ok(shown));
}

fn tell_order(
    alloc: Global,
    row: Row<'_>,
    graph: &Graph,
    order: &[usize],
    answers: &mut Answers,
) -> Result<(), RowFault> {
    answers.begin("cycles");
    for cycle in &cycles(alloc, graph, direction_in(row))? {
        let mut between = "; ";
        for node in cycle {
            answers.part(between, node);
            between = " ";
        }
    }
    answers.list("listing", order.to_vec(alloc));
    let nodes = nodes_in(alloc, row, graph.node_count(), "set")?;
    let set = NodeSet::of(alloc, graph.node_count(), &nodes)?;
    tell_set(alloc, row, graph, order, &set, answers)
}

fn tell_set(
    alloc: Global,
    row: Row<'_>,
    graph: &Graph,
    order: &[usize],
    set: &NodeSet,
    answers: &mut Answers,
) -> Result<(), RowFault>
    requires sized { length set.now ≡ graph.now.nodes }
{
    answers.list("listed", listed_members(alloc, order, set));
    answers.list("inside", links_inside(alloc, graph, set));
    answers.list("roots", root_nodes(alloc, graph, set, direction_in(row)));
    answers.show("sizes", &set.len());
    answers.part(" of ", &NodeSet::all(alloc, graph.node_count())?.len());
    answers.part(", ", &NodeSet::none(alloc, graph.node_count())?.len());
    let nodes = nodes_in(alloc, row, graph.node_count(), "other")?;
    let other = NodeSet::of(alloc, graph.node_count(), &nodes)?;
    tell_two(alloc, set, &other, answers);
    Ok(())
}

fn tell_two(alloc: Global, set: &NodeSet, other: &NodeSet, answers: &mut Answers)
    requires sized { length other.now ≡ length set.now }
{
    answers.list("union", members_of(alloc, set.union(alloc, other)));
    let intersection = set.intersection(alloc, other);
    answers.list("intersection", members_of(alloc, intersection));
    answers.list(
        "difference",
        members_of(alloc, set.difference(alloc, other)),
    );
    let symmetric = set.symmetric_difference(alloc, other);
    answers.list("symmetric_difference", members_of(alloc, symmetric));
}
