//! What is found in rows at once.

ghost use Rattle.std.specs.Prelude.{◌≡◌, IfOk, length, map, nat_lt};
ghost use Rattle.numbered_graph.specs.Listings.{IsListing};
ghost use Rattle.numbered_graph.specs.Sets.{has};
ghost use Rattle.guppy_package_rules.specs.Readings.{AreRequirementsOf, AreVersionsOf};
ghost use Rattle.guppy_package_table.specs.Indices.{ArePackagesKept, IndexesLinks, IndexesPackages};
ghost use Rattle.guppy_package_table.specs.Tables.{AreKnownEnds, firm_flags, ids_of, link_between};

use crate::members::{Members, members_of};
use crate::numbering::{firm_links, numbered_links};
use crate::package_ids::ids_of;
use crate::rust_names::rust_names_of;
use guppy_package_parts::{LinkRow, PackageId, PackageRow, WorkspaceRow};
use indexmap::IndexSet;
use numbered_graph::{Graph, listing};
use semver::{Version, VersionReq};
use std::alloc::{AllocError, Global};
use std::rc::Rc;
use workspace_record::WorkspaceRecord;

/// Packages by id, the versions that were read, and the places of members.
pub struct PackageIndices {
    pub ids: IndexSet<PackageId>,
    pub versions: Vec<Version>,
    pub members: Members,
}

// Written out, so that a function that lets one go takes one step.
impl Drop for PackageIndices {
    fn drop(self) {
        let PackageIndices {
            ids,
            versions: _,
            members,
        } = self;
        drop(ids);
        drop(members);
    }
}

/// A record with what is found in its packages and workspace at once: what tables share that differ in
/// their links alone. Whoever gave the record shares it too.
pub struct SharedRows {
    pub rows: Rc<WorkspaceRecord>,
    pub indices: PackageIndices,
}

// Written out, so that a function that lets one go takes one step.
impl Drop for SharedRows {
    fn drop(self) {
        let SharedRows {
            rows: _,
            indices: _,
        } = self;
    }
}

impl SharedRows {
    pub(crate) fn packages(&self) -> &[PackageRow]
        ensures { result.now ≡ self.now.rows.value.packages }
    {
        &self.rows.as_ref().packages
    }

    pub(crate) fn workspace(&self) -> &WorkspaceRow
        ensures { result.now ≡ self.now.rows.value.workspace }
    {
        &self.rows.as_ref().workspace
    }

    /// The links of the record.
    pub(crate) fn links(&self) -> &[LinkRow]
        ensures { result.now ≡ self.now.rows.value.links }
    {
        &self.rows.as_ref().links
    }
}

/// The requirements that were read, names as Rust writes them, and the graph of the places of packages
/// with its listing.
pub struct LinkIndices {
    pub requirements: Vec<VersionReq>,
    pub rust_names: Vec<String>,
    pub graph: Graph,
    pub listing: Vec<usize>,
}

// Written out, so that a function that lets one go takes one step.
impl Drop for LinkIndices {
    fn drop(self) {
        let LinkIndices {
            requirements: _,
            rust_names: _,
            graph: _,
            listing: _,
        } = self;
    }
}

/// What is found at once in packages and a workspace, which keep the rules with some links, beside the
/// versions that were read.
pub(crate) fn package_indices(
    alloc: Global,
    packages: &[PackageRow],
    workspace: &WorkspaceRow,
    versions: Vec<Version>,
) -> Result<PackageIndices, AllocError>
    requires kept { ArePackagesKept packages.now workspace.now }
    requires read { AreVersionsOf packages.now versions.items }
    ensures { IfOk result (IndexesPackages packages.now workspace.now) }
{
    let ids = ids_of(alloc, packages)?;
    match members_of(alloc, &ids, workspace) {
        Ok(members) => Ok(PackageIndices {
            ids,
            versions,
            members,
        }),
        Err(refused) => {
            drop(ids);
            Err(refused)
        }
    }
}

/// What is found at once in links between these packages, beside the requirements that were read.
pub(crate) fn link_indices(
    alloc: Global,
    shared: &SharedRows,
    links: &[LinkRow],
    requirements: Vec<VersionReq>,
) -> Result<LinkIndices, AllocError>
    requires ids { shared.now.indices.ids.keys ≡ ids_of shared.now.rows.value.packages }
    requires ends { AreKnownEnds (ids_of shared.now.rows.value.packages) links.now }
    requires read { AreRequirementsOf links.now requirements.items }
    ensures { IfOk result (IndexesLinks shared.now.rows.value.packages links.now) }
{
    let rust_names = rust_names_of(alloc, links)?;
    let graph = graph_of(alloc, &shared.indices.ids, links)?;
    let listing = listing_of(alloc, &graph, links)?;
    Ok(LinkIndices {
        requirements,
        rust_names,
        graph,
        listing,
    })
}

fn graph_of(
    alloc: Global,
    ids: &IndexSet<PackageId>,
    links: &[LinkRow],
) -> Result<Graph, AllocError>
    requires { AreKnownEnds ids.now.keys links.now }
    ensures { IfOk result (λ g. g ≡ record {
      nodes = length ids.now.keys;
      links = map (link_between ids.now.keys) links.now;
    }) }
{
    let numbered = numbered_links(alloc, ids, links)?;
    let graph = Graph::new(alloc, ids.len(), numbered)?;
    Ok(graph)
}

fn listing_of(alloc: Global, graph: &Graph, links: &[LinkRow]) -> Result<Vec<usize>, AllocError>
    requires { length graph.now.links ≡ length links.now }
    ensures { IfOk result (λ xs. IsListing graph.now.links (has (firm_flags links.now))
        (λ v. nat_lt v graph.now.nodes) xs.items) }
{
    let firm = firm_links(alloc, links)?;
    let order = listing(alloc, graph, &firm)?;
    Ok(order)
}
