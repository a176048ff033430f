//! All that rows say of features.

ghost use Rattle.std.specs.Prelude.{◌≡◌, IfOk, map};
ghost use Rattle.guppy_package_parts.specs.WarningViews.{warning_view};
ghost use Rattle.guppy_feature_demands.specs.Demands.{demands_of, kept_demands};
ghost use Rattle.guppy_feature_demands.specs.DemandViews.{numbered_view};
ghost use Rattle.guppy_feature_demands.specs.Nodes.{nodes_of};
ghost use Rattle.guppy_feature_demands.specs.Warnings.{warnings_of};

use crate::demand::NumberedDemand;
use crate::entries::entries_of;
use crate::kept_demands::kept_demands;
use crate::link_table::LinkTable;
use crate::nodes::NodeTable;
use crate::package_at::PackageAt;
use crate::warnings::warnings_of;
use guppy_package_parts::{FeatureGraphWarning, LinkRow};
use std::alloc::{AllocError, Global};

/// The features of packages, what leads from one to another, and what is odd.
#[derive(Drop)]
pub struct FeatureParts<'g> {
    pub nodes: NodeTable<'g>,
    pub demands: Vec<NumberedDemand<'g>>,
    pub warnings: Vec<FeatureGraphWarning>,
}

/// What the rows of packages and links say of features. Takes time in proportion to packages,
/// features, entries and lines, each with the texts that it names.
pub fn feature_parts<'g>(
    alloc: Global,
    packages: &[PackageAt<'g>],
    links: &'g [LinkRow],
) -> Result<FeatureParts<'g>, AllocError>
    ensures nodes { IfOk result (λ p. p.nodes ≡ nodes_of (map (λ at. at.row.now) packages.now)) }
    ensures demands { IfOk result (λ p. map numbered_view p.demands.items
        ≡ kept_demands (nodes_of (map (λ at. at.row.now) packages.now))
        (demands_of (map (λ at. at.row.now) packages.now) links.entry.now)) }
    ensures warnings { IfOk result (λ p. map warning_view p.warnings.items
        ≡ warnings_of (map (λ at. at.row.now) packages.now) links.entry.now) }
{
    let nodes = NodeTable::of(alloc, packages)?;
    let table = LinkTable::of(alloc, links)?;
    let entries = entries_of(alloc, packages)?;
    let demands = kept_demands(alloc, &entries, &nodes, &table)?;
    let warnings = warnings_of(alloc, &entries, &nodes, &table)?;
    Ok(FeatureParts {
        nodes,
        demands,
        warnings,
    })
}
