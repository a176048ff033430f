//! The graph of packages, and what it says of each.

ghost use Rattle.std.specs.Prelude.{◌≡◌, ◌≢◌, ◌↔◌, ◌<◌, AllPairs, IfErr, IfOk, IsTrue, Ok, length};
ghost use Rattle.guppy_package_rules.specs.Kept.{AreKept};
ghost use Rattle.guppy_package_rules.specs.Refusals.{IsRefusal};
ghost use Rattle.guppy_package_table.specs.Tables.{IsTableOf, id_at, ids_of, numbered_links, place_among};
ghost use Rattle.numbered_graph.specs.Links.{near_at};
ghost use Rattle.guppy_package_table.specs.Members.{AreByName, AreByPath};
ghost use Rattle.guppy_package_graph.specs.AllViews.{all_graph_of, first_left};
ghost use Rattle.guppy_package_graph.specs.Finding.{FindsPlace, FindsPackage};
ghost use Rattle.guppy_package_graph.specs.WorkspaceViews.{workspace_of};
ghost use Rattle.guppy_package_graph.specs.Views.{graph_of, place_of, number_of, link_graph_of};

use crate::all_packages::AllPackages;
use crate::package_link::PackageLink;
use crate::package_metadata::PackageMetadata;
use crate::workspace::Workspace;
use guppy_package_parts::{Error, LinkRow, PackageId, PackageRow, WorkspaceRow};
use guppy_package_table::{MemberOrders, PackageGraphError, PackageTable, member_orders};
use numbered_graph::Direction;
use std::alloc::{AllocError, Global};
use std::fmt;
use std::marker::Model;
use std::rc::Rc;
use workspace_record::WorkspaceRecord;

/// The packages of a workspace and the links between them: the rows of a record that keeps the rules
/// on packages, links and members.
pub struct PackageGraph {
    table: PackageTable,
    members: MemberOrders,
}

// Written out, so that a function that lets one go takes one step.
impl Drop for PackageGraph {
    fn drop(self) {
        let PackageGraph {
            table: _,
            members: _,
        } = self;
    }
}

impl Model for PackageGraph {
    ghost use Rattle.guppy_package_table.specs.Tables.{TableValue};
    ghost use Rattle.guppy_package_table.specs.Members.{AreByName, AreByPath};
    ghost use Rattle.guppy_package_rules.specs.Kept.{AreKept};

    ghost Value = { TableValue };

    ghost view = { λ g. g.table };

    ghost invariant = { λ g. (AreByPath g.table g.members.by_path.items × AreByName g.table g.members.by_name.items) × AreKept g.table.packages g.table.links g.table.workspace };
}

impl PackageGraph {
    /// The graph of these rows, or the first rule on packages, links and members that they break, at
    /// its first place. Takes time in proportion to packages and links, up to sorting.
    pub fn from_records(
        alloc: Global,
        packages: Vec<PackageRow>,
        links: Vec<LinkRow>,
        workspace: WorkspaceRow,
    ) -> Result<PackageGraph, PackageGraphError>
        ensures built { IfOk result (λ g. AreKept packages.items links.items workspace
            × IsTableOf packages.items links.items workspace g) }
        ensures refused { IfErr result (IsRefusal packages.items links.items workspace) }
    {
        let table = PackageTable::from_records(alloc, packages, links, workspace)?;
        let graph = PackageGraph::of_table(alloc, table)?;
        Ok(graph)
    }

    /// The graph of the rows of a record, which it shares, so that none is copied; or the first rule
    /// that they break, in the same way.
    pub fn from_shared(
        alloc: Global,
        rows: Rc<WorkspaceRecord>,
    ) -> Result<PackageGraph, PackageGraphError>
        ensures built { IfOk result (λ g. AreKept rows.value.packages rows.value.links
            rows.value.workspace × IsTableOf rows.value.packages rows.value.links
            rows.value.workspace g) }
        ensures refused { IfErr result (IsRefusal rows.value.packages rows.value.links
            rows.value.workspace) }
    {
        let table = PackageTable::from_shared(alloc, rows)?;
        let graph = PackageGraph::of_table(alloc, table)?;
        Ok(graph)
    }

    /// The graph of a table whose rows keep the rules.
    pub(crate) fn of_table(alloc: Global, table: PackageTable) -> Result<PackageGraph, AllocError>
        requires { AreKept table.packages table.links table.workspace }
        ensures { IfOk result (λ g. g ≡ table) }
    {
        let members = member_orders(alloc, &table)?;
        Ok(PackageGraph { table, members })
    }

    // The listing keeps its order; the other indices are made anew.
    /// An equal graph, with links of its own.
    pub fn copy(&self, alloc: Global) -> Result<PackageGraph, AllocError>
        ensures same { IfOk result (λ g. g ≡ self.now) }
    {
        PackageGraph::of_table(alloc, self.table.copy(alloc)?)
    }

    /// The rows with what is found in them at once.
    pub(crate) fn table(&self) -> &PackageTable
        ensures { result.now ≡ self.now }
    {
        &self.table
    }

    /// The places of the members, ascending by path.
    pub(crate) fn members_by_path(&self) -> &[usize]
        ensures { AreByPath self.now result.now }
    {
        &self.members.by_path
    }

    /// The places of the members, ascending by name.
    pub(crate) fn members_by_name(&self) -> &[usize]
        ensures { AreByName self.now result.now }
    {
        &self.members.by_name
    }

    /// The rows of the links, in the order of the record; with those of the packages and the workspace
    /// they keep the rules, as in each graph.
    pub fn link_rows(&self) -> &[LinkRow]
        ensures rows { result.now ≡ self.now.links }
        ensures kept { AreKept self.now.packages self.now.links self.now.workspace }
    {
        self.table.links()
    }

    /// The workspace.
    pub fn workspace(&self) -> Workspace<'_>
        ensures graph { workspace_of result ≡ self.now }
    {
        Workspace::of(self)
    }

    /// The ids of the packages, in the order of the record. No two packages have the same.
    pub fn package_ids(&self) -> &[PackageId]
        ensures ids { result.now ≡ ids_of self.now.packages }
        ensures apart { AllPairs (λ a b. a.id ≢ b.id) self.now.packages }
    {
        self.table.ids()
    }

    /// The packages, in the order of the record.
    pub fn packages(&self) -> AllPackages<'_>
        ensures graph { all_graph_of result ≡ self.now }
        ensures first { first_left result ≡ 0 }
    {
        AllPackages::of(self)
    }

    /// Whether both graphs have the same list of package ids.
    pub fn same_packages(&self, other: &PackageGraph) -> bool
        ensures same { IsTrue result ↔ (ids_of self.now.packages ≡ ids_of other.now.packages) }
    {
        self.package_ids() == other.package_ids()
    }

    /// How many packages there are.
    pub fn package_count(&self) -> usize
        ensures count { result ≡ length self.now.packages }
    {
        self.table.packages().len()
    }

    /// How many links there are.
    pub fn link_count(&self) -> usize
        ensures count { result ≡ length self.now.links }
    {
        self.table.links().len()
    }

    /// What the graph says of the package with an id.
    pub fn metadata(&self, package_id: &PackageId) -> Result<PackageMetadata<'_>, Error>
        ensures found { FindsPackage self.now package_id.now result }
    {
        let place = self.place_of(package_id)?;
        Ok(self.metadata_at(place))
    }

    pub(crate) fn place_of(&self, package_id: &PackageId) -> Result<usize, Error>
        ensures { FindsPlace self.now package_id.now result }
    {
        match self.table.find(package_id) {
            Some(place) => Ok(place),
            None => Err(Error::UnknownPackageId),
        }
    }

    /// The place of the package with an id in the order of the record; the number of packages where
    /// there is none.
    pub fn number_of(&self, package_id: &str) -> usize
        ensures number { result ≡ place_among (ids_of self.now.packages) package_id.now }
    {
        self.table.place_of(package_id)
    }

    /// What the graph says of the package at a place.
    pub fn metadata_at(&self, place: usize) -> PackageMetadata<'_>
        requires { place < length self.now.packages }
        ensures graph { graph_of result ≡ self.now }
        ensures place { place_of result ≡ place }
    {
        PackageMetadata::at(self, place)
    }

    pub(crate) fn id_at(&self, place: usize) -> &PackageId
        requires { place < length self.now.packages }
        ensures { result.now ≡ id_at self.now place }
    {
        self.table.id_at(place)
    }

    // Public, since links of features name links of packages by numbers, and to look for one from its package
    // would be a scan.
    /// The link with a number.
    pub fn link_at(&self, number: usize) -> PackageLink<'_>
        requires { number < length self.now.links }
        ensures graph { link_graph_of result ≡ self.now }
        ensures number { number_of result ≡ number }
    {
        PackageLink::at(self, number)
    }

    /// The place of the package from which the link with a number is followed.
    pub fn end_of(&self, direction: Direction, number: usize) -> usize
        requires { number < length self.now.links }
        ensures end { result ≡ near_at direction (numbered_links self.now) number }
        ensures within { result < length self.now.packages }
    {
        self.table.graph().near(direction, number)
    }

    /// Whether the graph keeps its own rules, as each graph does that was built.
    pub fn verify(&self) -> Result<(), Error>
        ensures kept { result ≡ Ok tt }
    {
        Ok(())
    }
}

impl fmt::Debug for PackageGraph {
    fn fmt<W: fmt::Write>(&self, f: &mut fmt::Formatter<W>) -> fmt::Result {
        f.debug_struct("PackageGraph")
            .field("packages", &self.packages())
            .finish_non_exhaustive()
    }
}
