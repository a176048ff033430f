//! Edges, joined from demands.

ghost use Rattle.std.specs.Prelude.{IfOk, map};
ghost use Rattle.indexmap.specs.IndexMap.{values};
ghost use Rattle.guppy_feature_demands.specs.DemandViews.{numbered_view};
ghost use Rattle.guppy_feature_nodes.specs.GroupViews.{group_view};
ghost use Rattle.guppy_feature_nodes.specs.Groups.{AreKept};
ghost use Rattle.guppy_feature_nodes.specs.JoinedViews.{joined_view};
ghost use Rattle.guppy_feature_nodes.specs.Joining.{AreJoined};
ghost use Rattle.guppy_feature_nodes.specs.KeyViews.{key_view};
ghost use Rattle.guppy_feature_nodes.specs.Weights.{FindsWeights};

use crate::edge_key::EdgeKey;
use crate::groups::{Group, Groups, groups_of};
use crate::weights::{gives_way, weights_of};
use guppy_feature_demands::NumberedDemand;
use guppy_package_parts::SortedSet;
use indexmap::IndexSet;
use std::alloc::{AllocError, Global};

/// An edge: the first demand that joins in it, and the lines of all of them, each told by the number
/// of its link and by its own there.
#[derive(Drop)]
pub struct JoinedEdge<'g> {
    pub head: NumberedDemand<'g>,
    pub lines: SortedSet<(usize, usize)>,
}

/// The edges that are joined from these demands, in the order of their first ones. Takes time in
/// proportion to the demands, up to sorting.
pub fn joined_edges<'g>(
    alloc: Global,
    demands: Vec<NumberedDemand<'g>>,
) -> Result<Vec<JoinedEdge<'g>>, AllocError>
    ensures joined { IfOk result (λ v. AreJoined (map numbered_view demands.entry.items)
        (map joined_view v.items)) }
{
    let weights = weights_of(alloc, &demands)?;
    let edges = edges_by(alloc, &weights, demands);
    drop(weights);
    edges
}

// The edges of demands that have these weights. The demands are let go before the edges are made.
fn edges_by<'g>(
    alloc: Global,
    weights: &IndexSet<EdgeKey<'g>>,
    demands: Vec<NumberedDemand<'g>>,
) -> Result<Vec<JoinedEdge<'g>>, AllocError>
    requires { FindsWeights (map numbered_view demands.items) (map key_view weights.now.keys) }
    ensures { IfOk result (λ v. AreJoined (map numbered_view demands.entry.items)
        (map joined_view v.items)) }
{
    let groups = groups_of(alloc, &demands)?;
    drop(demands);
    edges_of(alloc, weights, groups)
}

// The edges of the groups that give way to none of these weights.
fn edges_of<'g>(
    alloc: Global,
    weights: &IndexSet<EdgeKey<'g>>,
    groups: Groups<'g>,
) -> Result<Vec<JoinedEdge<'g>>, AllocError>
    ensures { IfOk result (λ v. AreKept (map key_view weights.now.keys)
        (map group_view (values groups.entry.map)) (map joined_view v.items)) }
{
    let mut edges: Vec<JoinedEdge<'g>> = Vec::with_capacity(alloc, groups.map.len())?;
    let map = groups.into_map();
    for group in map.into_values() {
        if !gives_way(weights, group.first) {
            let Group { first, lines } = group;
            edges.push(JoinedEdge {
                head: first,
                lines: SortedSet::new(lines),
            })?;
        }
    }
    Ok(edges)
}
