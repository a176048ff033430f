//! What the rows demand between nodes, part by part, so that no list is held of all that they demand.

ghost use Rattle.std.specs.Prelude.{◌≡◌, ◌++◌, IfOk, map};
ghost use Rattle.std.specs.List.{flat_map};
ghost use Rattle.guppy_feature_demands.specs.Demands.{base_demands, kept_demands, link_demands};
ghost use Rattle.guppy_feature_demands.specs.DemandViews.{numbered_view};
ghost use Rattle.guppy_feature_demands.specs.EntriesAt.{at_demands};
ghost use Rattle.guppy_feature_demands.specs.EntryAtView.{entry_at_view};

use crate::demand::NumberedDemand;
use crate::demands::{base_demands, entry_demands, link_demands};
use crate::entries::EntryAt;
use crate::link_table::LinkTable;
use crate::nodes::NodeTable;
use crate::numbering::keep_demands;
use std::alloc::{AllocError, Global};

/// What leads from one node to another.
pub(crate) fn kept_demands<'g>(
    alloc: Global,
    entries: &[EntryAt<'g>],
    nodes: &NodeTable<'g>,
    links: &LinkTable<'g>,
) -> Result<Vec<NumberedDemand<'g>>, AllocError>
    ensures { IfOk result (λ v. map numbered_view v.items
        ≡ kept_demands nodes.now
        (base_demands nodes.now
        ++ (flat_map (at_demands nodes.now links.now) (map entry_at_view entries.now)
        ++ flat_map link_demands links.now))) }
{
    let mut kept: Vec<NumberedDemand<'g>> = Vec::new(alloc);
    keep_demands(nodes, &base_demands(alloc, nodes)?, &mut kept)?;
    keep_demands(
        nodes,
        &entry_demands(alloc, entries, nodes, links)?,
        &mut kept,
    )?;
    keep_demands(nodes, &link_demands(alloc, links)?, &mut kept)?;
    Ok(kept)
}
