//! Demands by what joins them in one edge.

ghost use Rattle.std.specs.Prelude.{◌≡◌, IfOk, OnOk, map};
ghost use Rattle.indexmap.specs.IndexMap.{insert_entry};
ghost use Rattle.std.specs.Map.{lookup};
ghost use Rattle.guppy_feature_demands.specs.DemandViews.{numbered_view};
ghost use Rattle.guppy_feature_nodes.specs.GroupViews.{entry_view, group_view};
ghost use Rattle.guppy_feature_nodes.specs.Groups.{grown, joins_line};
ghost use Rattle.guppy_feature_nodes.specs.Joined.{JoinsDemands};
ghost use Rattle.guppy_feature_nodes.specs.Joining.{join_key, key_eq};

use crate::edge_key::EdgeKey;
use guppy_feature_demands::NumberedDemand;
use indexmap::IndexMap;
use std::alloc::{AllocError, Global};

/// The first of the demands that join in one edge, and the lines of all of them, each told by the
/// number of its link and by its own there.
#[derive(Drop)]
pub(crate) struct Group<'g> {
    pub first: NumberedDemand<'g>,
    pub lines: Vec<(usize, usize)>,
}

/// The groups of demands, in the order of their first ones.
pub(crate) struct Groups<'g> {
    pub map: IndexMap<EdgeKey<'g>, Group<'g>>,
}

// Written out, so that a function that lets one go takes one step.
impl Drop for Groups<'_> {
    fn drop(self) {
        let Groups { map: _ } = self;
    }
}

impl<'g> Groups<'g> {
    /// The groups, each under what joins it.
    pub(crate) fn into_map(self) -> IndexMap<EdgeKey<'g>, Group<'g>>
        ensures { result ≡ self.entry.map }
    {
        let Groups { map } = self;
        map
    }
}

/// The groups in which these demands join.
pub(crate) fn groups_of<'g>(
    alloc: Global,
    demands: &[NumberedDemand<'g>],
) -> Result<Groups<'g>, AllocError>
    ensures { IfOk result (JoinsDemands (map numbered_view demands.now)) }
{
    let mut groups: Groups<'g> = Groups {
        map: IndexMap::with_capacity(alloc, demands.len())?,
    };
    for demand in demands {
        push_demand(alloc, &mut groups, *demand)?;
    }
    Ok(groups)
}

fn push_demand<'g>(
    alloc: Global,
    groups: &mut Groups<'g>,
    demand: NumberedDemand<'g>,
) -> Result<(), AllocError>
    ensures { OnOk result (map entry_view groups.new.map.entries
        ≡ insert_entry key_eq (map entry_view groups.old.map.entries)
        (join_key (numbered_view demand.entry))
        (grown (lookup (key_eq (join_key (numbered_view demand.entry)))
        (map entry_view groups.old.map.entries)) (numbered_view demand.entry))) }
{
    let key = EdgeKey::joining(demand);
    let group = groups.map.entry(key)?.or_insert(Group {
        first: demand,
        lines: Vec::new(alloc),
    });
    push_line(group, demand.line)?;
    Ok(())
}

fn push_line<'g>(group: &mut Group<'g>, line: Option<(usize, usize)>) -> Result<(), AllocError>
    ensures { OnOk result (group_view group.new ≡ joins_line (group_view group.old) line) }
{
    if let Some(place) = line {
        // The first gets room for itself alone, since most edges have one line.
        if group.lines.is_empty() {
            group.lines.reserve_exact(1)?;
        }
        group.lines.push(place)?;
    }
    Ok(())
}
