//! Edges read from rows.

use crate::numbers::lists::node_count_in;
use numbered_offers::{Edge, EdgeSort, OfferGraph, are_edges_within};
use row_program::{Row, RowFault};
use serde_json::Value;
use std::alloc::Global;

/// The graph of a row: `nodes`, and `edges` as lists of two ends, and behind them `?` for one that is
/// offered whole, or the halves that are there (`r`, `o`, `ro`) and the node for which the optional one
/// waits.
pub(crate) fn graph_in(alloc: Global, row: Row<'_>) -> Result<OfferGraph, RowFault> {
    let nodes = node_count_in(row)?;
    let mut edges = Vec::new(alloc);
    for value in row.list("edges")? {
        match edge_of(value) {
            Some(edge) => edges.push(edge)?,
            None => return Err(RowFault::Key("edges")),
        }
    }
    if !are_edges_within(nodes, &edges) {
        return Err(RowFault::Key("edges"));
    }
    Ok(OfferGraph::new(alloc, nodes, edges)?)
}

fn edge_of(value: &Value) -> Option<Edge> {
    let from = value.get(0)?.as_u64()? as usize;
    let to = value.get(1)?.as_u64()? as usize;
    let sort = sort_of(value)?;
    Some(Edge { from, to, sort })
}

fn sort_of(value: &Value) -> Option<EdgeSort> {
    let Some(sort) = value.get(2) else {
        return Some(EdgeSort::Unconditional);
    };
    let (required, optional) = match sort.as_str()? {
        "?" => return Some(EdgeSort::Conditional),
        "r" => (true, false),
        "o" => (false, true),
        "ro" => (true, true),
        _ => return None,
    };
    let dep = value.get(3)?.as_u64()? as usize;
    Some(EdgeSort::Weak {
        dep,
        required,
        optional,
    })
}
