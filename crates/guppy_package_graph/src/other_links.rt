//! The graph of the same packages and workspace with other links.

ghost use Rattle.std.specs.Prelude.{IfOk};
ghost use Rattle.guppy_package_rules.specs.Kept.{AreKept};
ghost use Rattle.guppy_package_table.specs.Tables.{IsTableOf};

use crate::package_graph::PackageGraph;
use guppy_package_parts::LinkRow;
use std::alloc::{AllocError, Global};

impl PackageGraph {
    /// The graph of the same packages and workspace with these links, which keep the rules, so that none
    /// is tested. The rows of packages are shared, not copied.
    ///
    /// Who calls knows it of the links of a graph of these packages and this workspace (`link_rows`, its
    /// clause `kept`), and of what is made of them so that no rule can break: some of them, or each with
    /// some of its lines. Of links that come from elsewhere it is found out by `from_records`.
    pub fn with_links(&self, alloc: Global, links: Vec<LinkRow>) -> Result<PackageGraph, AllocError>
        requires kept { AreKept self.now.packages links.items self.now.workspace }
        ensures built { IfOk result (λ g. AreKept self.now.packages links.items self.now.workspace
            × IsTableOf self.now.packages links.items self.now.workspace g) }
    {
        let table = self.table().with_links(alloc, links)?;
        PackageGraph::of_table(alloc, table)
    }
}
