//! What rows say of nodes, and what comes of sets of them.

ghost use Rattle.std.specs.Prelude.{◌≡◌, ◌<◌, length, All, IfOk};

use numbered_graph::{Direction, NodeSet, are_below};
use row_program::{Row, RowFault};
use serde_json::Value;
use std::alloc::{AllocError, Global};

/// How many nodes the row has.
pub(crate) fn node_count_in(row: Row<'_>) -> Result<usize, RowFault> {
    match row.get("nodes").and_then(Value::as_u64) {
        Some(number) => Ok(number as usize),
        None => Err(RowFault::Key("nodes")),
    }
}

/// The nodes under a key, each below the count.
pub(crate) fn nodes_in(
    alloc: Global,
    row: Row<'_>,
    count: usize,
    key: &'static str,
) -> Result<Vec<usize>, RowFault>
    ensures { IfOk result (λ v. All (λ n. n < count) v.items) }
{
    let nodes = row.numbers(alloc, key)?;
    if !are_below(count, &nodes) {
        return Err(RowFault::Key(key));
    }
    Ok(nodes)
}

/// A flag for each of so many links or edges, set but for those under the key.
pub(crate) fn flags_in(
    alloc: Global,
    row: Row<'_>,
    count: usize,
    key: &'static str,
) -> Result<Vec<bool>, RowFault>
    ensures { IfOk result (λ v. length v.items ≡ count) }
{
    let numbers = row.numbers(alloc, key)?;
    let mut flags = Vec::new(alloc);
    for number in 0..count {
        flags.push(!numbers.contains(&number))?;
    }
    Ok(flags)
}

/// Where links are followed: backwards if the row says `"direction": "reverse"`.
pub(crate) fn direction_in(row: Row<'_>) -> Direction {
    match row.get("direction").and_then(Value::as_str) {
        Some("reverse") => Direction::Reverse,
        _ => Direction::Forward,
    }
}

/// The members of a set that was made, ascending.
pub(crate) fn members_of(
    alloc: Global,
    set: Result<NodeSet, AllocError>,
) -> Result<Vec<usize>, AllocError> {
    let set = set?;
    set.members(alloc)
}
