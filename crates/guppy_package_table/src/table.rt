//! The rows of a package graph with their indices.

ghost use Rattle.std.specs.Prelude.{◌≡◌, ◌≢◌, ◌<◌, All, AllPairs, IfErr, IfNone, IfOk, IfSome, Some, length, map, nat_lt, option_map, position, slice_get};
ghost use Rattle.std.specs.Option.{option_copied};
ghost use Rattle.std.specs.Str.{bytes_eq};
ghost use Rattle.numbered_graph.specs.Listings.{IsListing};
ghost use Rattle.numbered_graph.specs.Sets.{has};
ghost use Rattle.guppy_package_rules.specs.Kept.{AreKept};
ghost use Rattle.guppy_package_rules.specs.Readings.{AreReadIn, AreRequirementsOf, AreVersionsOf};
ghost use Rattle.guppy_package_rules.specs.Refusals.{IsRefusal};
ghost use Rattle.guppy_package_table.specs.Indices.{ArePackagesKept, IndexesPackages};
ghost use Rattle.guppy_package_table.specs.LinkDetailsViews as link_views;
ghost use Rattle.guppy_package_table.specs.PackageDetailsViews.{member_path_of, row_of};
ghost use Rattle.guppy_package_table.specs.TableLinks.{links_of};
ghost use Rattle.guppy_package_table.specs.Tables.{AreKnownEnds, IsClear, IsFirstBetween, IsTableOf, firm_flags, ids_of, member_of, numbered_links, place_among};

use crate::indices::{LinkIndices, SharedRows, link_indices, package_indices};
use crate::link_details::LinkDetails;
use crate::members::member_at;
use crate::package_details::PackageDetails;
use crate::package_ids::{find_id, place_of_id};
use crate::table_links::TableLinks;
use guppy_package_parts::{LinkRow, MemberRow, PackageId, PackageRow, WorkspaceRow};
use guppy_package_rules::{PackageGraphError, RowReadings, read_requirements, read_rows};
use numbered_graph::{Direction, Graph};
use semver::{Version, VersionReq};
use std::alloc::{AllocError, Global};
use std::marker::Model;
use std::rc::Rc;
use workspace_record::{WorkspaceRecord, copy_links};

/// The rows of a package graph: packages and links are told by their places in the lists.
pub struct PackageTable {
    shared: Rc<SharedRows>,
    links: TableLinks,
    indices: LinkIndices,
}

// Written out, so that a function that lets one go takes one step.
impl Drop for PackageTable {
    fn drop(self) {
        let PackageTable {
            shared: _,
            links: _,
            indices: _,
        } = self;
    }
}

impl Model for PackageTable {
    ghost use Rattle.guppy_package_table.specs.Indices.{IndexesLinks, IndexesPackages};
    ghost use Rattle.guppy_package_table.specs.TableLinks.{links_of};
    ghost use Rattle.guppy_package_table.specs.Tables.{TableValue};

    ghost Value = { TableValue };

    ghost view = { λ t. record { packages = t.shared.value.rows.value.packages; links = links_of t.shared.value.rows.value.links t.links; workspace = t.shared.value.rows.value.workspace; listing = t.indices.listing.items } };

    ghost invariant = { λ t. IndexesPackages t.shared.value.rows.value.packages t.shared.value.rows.value.workspace t.shared.value.indices × IndexesLinks t.shared.value.rows.value.packages (links_of t.shared.value.rows.value.links t.links) t.indices };
}

impl PackageTable {
    /// The table of these rows, or the first rule on packages, links and members that they break, at
    /// its first place.
    pub fn from_records(
        alloc: Global,
        packages: Vec<PackageRow>,
        links: Vec<LinkRow>,
        workspace: WorkspaceRow,
    ) -> Result<PackageTable, PackageGraphError>
        ensures built { IfOk result (λ t. AreKept packages.items links.items workspace
            × IsTableOf packages.items links.items workspace t) }
        ensures refused { IfErr result (IsRefusal packages.items links.items workspace) }
    {
        let record = WorkspaceRecord {
            packages,
            links,
            workspace,
            groups: Vec::new(alloc),
            default_filter: None,
        };
        let rows = Rc::new(alloc, record)?;
        PackageTable::from_shared(alloc, rows)
    }

    /// The table of the rows of a record, which it shares, so that none is copied; or the first rule that
    /// they break, in the same way.
    pub fn from_shared(
        alloc: Global,
        rows: Rc<WorkspaceRecord>,
    ) -> Result<PackageTable, PackageGraphError>
        ensures built { IfOk result (λ t. AreKept rows.value.packages rows.value.links
            rows.value.workspace × IsTableOf rows.value.packages rows.value.links
            rows.value.workspace t) }
        ensures refused { IfErr result (IsRefusal rows.value.packages rows.value.links
            rows.value.workspace) }
    {
        let record = rows.as_ref();
        let readings = read_rows(alloc, &record.packages, &record.links, &record.workspace)?;
        let table = PackageTable::of_kept(alloc, rows, readings)?;
        Ok(table)
    }

    /// The table of a record whose rows keep the rules on packages, links and members, with what was read
    /// of them.
    fn of_kept(
        alloc: Global,
        rows: Rc<WorkspaceRecord>,
        readings: RowReadings,
    ) -> Result<PackageTable, AllocError>
        requires kept { AreKept rows.value.packages rows.value.links rows.value.workspace }
        requires read { AreReadIn rows.value.packages rows.value.links readings }
        ensures { IfOk result (IsTableOf rows.value.packages rows.value.links
            rows.value.workspace) }
    {
        let RowReadings {
            versions,
            requirements,
        } = readings;
        let shared = shared_rows(alloc, rows, versions)?;
        PackageTable::over(alloc, shared, TableLinks::OfRecord, requirements)
    }

    /// The table of the same packages and workspace with these links, which keep the rules with them.
    pub fn with_links(&self, alloc: Global, links: Vec<LinkRow>) -> Result<PackageTable, AllocError>
        requires kept { AreKept self.now.packages links.items self.now.workspace }
        ensures built { IfOk result (IsTableOf self.now.packages links.items self.now.workspace) }
    {
        // The links keep the rules, so that want of memory is all that stops it.
        let Ok(requirements) = read_requirements(alloc, &links) else {
            return Err(AllocError);
        };
        PackageTable::over(
            alloc,
            self.shared.clone()?,
            TableLinks::Others(links),
            requirements,
        )
    }

    fn over(
        alloc: Global,
        shared: Rc<SharedRows>,
        links: TableLinks,
        requirements: Vec<VersionReq>,
    ) -> Result<PackageTable, AllocError>
        requires ends { AreKnownEnds (ids_of shared.value.rows.value.packages)
            (links_of shared.value.rows.value.links links) }
        requires read { AreRequirementsOf (links_of shared.value.rows.value.links links)
            requirements.items }
        requires indexed { IndexesPackages shared.value.rows.value.packages
            shared.value.rows.value.workspace shared.value.indices }
        ensures { IfOk result (IsTableOf shared.value.rows.value.packages
            (links_of shared.value.rows.value.links links) shared.value.rows.value.workspace) }
    {
        let rows = shared.as_ref();
        let indices = link_indices(alloc, rows, links.rows(rows.links()), requirements)?;
        Ok(PackageTable {
            shared,
            links,
            indices,
        })
    }

    /// An equal table, with links of its own.
    pub fn copy(&self, alloc: Global) -> Result<PackageTable, AllocError>
        requires { AreKept self.now.packages self.now.links self.now.workspace }
        ensures same { IfOk result (λ t. t ≡ self.now) }
    {
        let listing = Vec::from_slice(alloc, self.listing())?;
        let links = copy_links(alloc, self.links())?;
        let mut table = self.with_links(alloc, links)?;
        table.indices.listing = listing;
        Ok(table)
    }

    /// The packages' rows, in the order of the record.
    pub fn packages(&self) -> &[PackageRow]
        ensures { result.now ≡ self.now.packages }
    {
        self.shared.as_ref().packages()
    }

    /// The links' rows, in the order of the record.
    pub fn links(&self) -> &[LinkRow]
        ensures { result.now ≡ self.now.links }
    {
        self.links.rows(self.shared.as_ref().links())
    }

    /// The workspace's row.
    pub fn workspace(&self) -> &WorkspaceRow
        ensures { result.now ≡ self.now.workspace }
    {
        self.shared.as_ref().workspace()
    }

    /// The places of packages with the links between them, each with its number.
    pub fn graph(&self) -> &Graph
        ensures { result.now ≡ record {
          nodes = length self.now.packages;
          links = numbered_links self.now;
        } }
    {
        &self.indices.graph
    }

    /// All places: components together, links between components forward, and those forward too that
    /// have a normal or a build line, unless they lie on a cycle of such links.
    pub fn listing(&self) -> &[usize]
        ensures value { result.now ≡ self.now.listing }
        ensures listing { IsListing (numbered_links self.now) (has (firm_flags self.now.links))
            (λ v. nat_lt v (length self.now.packages)) result.now }
    {
        &self.indices.listing
    }

    /// The ids of the packages, in the order of the record. No two packages have the same.
    pub fn ids(&self) -> &[PackageId]
        ensures value { result.now ≡ ids_of self.now.packages }
        ensures apart { AllPairs (λ a b. a.id ≢ b.id) self.now.packages }
    {
        self.shared.as_ref().indices.ids.as_slice()
    }

    /// The id of the package at a place.
    pub fn id_at(&self, place: usize) -> &PackageId
        requires { place < length self.now.packages }
        ensures { slice_get (ids_of self.now.packages) place ≡ Some result.now }
    {
        &self.ids()[place]
    }

    /// The place of the package with an id.
    pub fn find(&self, id: &PackageId) -> Option<usize>
        ensures { result ≡ position (bytes_eq id.now) (ids_of self.now.packages) }
    {
        find_id(&self.shared.as_ref().indices.ids, id.repr())
    }

    /// The place of the package with an id; the number of packages where there is none.
    pub fn place_of(&self, id: &str) -> usize
        ensures { result ≡ place_among (ids_of self.now.packages) id.now }
    {
        place_of_id(&self.shared.as_ref().indices.ids, id)
    }

    /// The member whose package has an id.
    pub fn member(&self, id: &str) -> Option<&MemberRow>
        ensures { option_copied result ≡ member_of self.now id.now }
    {
        let shared = self.shared.as_ref();
        let number = place_of_id(&shared.indices.members.ids, id);
        member_at(&shared.workspace().members, number)
    }

    /// What the row of the package at a place says.
    pub fn details(&self, place: usize) -> PackageDetails<'_>
        requires { place < length self.now.packages }
        ensures row { slice_get self.now.packages place ≡ Some (row_of result) }
        ensures path { member_path_of result ≡ option_map (λ m. m.path)
            (member_of self.now (row_of result).id) }
    {
        let shared = self.shared.as_ref();
        let row = &shared.packages()[place];
        let version = &shared.indices.versions[place];
        let number = shared.indices.members.numbers[place];
        PackageDetails::of(row, version, member_path(shared.workspace(), number))
    }

    /// What the row of the link with a number says.
    pub fn link_details(&self, number: usize) -> LinkDetails<'_>
        requires { number < length self.now.links }
        ensures { slice_get self.now.links number ≡ Some (link_views.row_of result) }
    {
        let row = &self.links()[number];
        let requirement = &self.indices.requirements[number];
        let rust_name = self.indices.rust_names[number].as_str();
        LinkDetails::of(row, requirement, rust_name)
    }

    /// The place of each member's package, in the order of the members.
    pub fn members(&self) -> &[usize]
        ensures value { result.now ≡ map (λ m. place_among (ids_of self.now.packages) m.package_id)
            self.now.workspace.members }
        ensures within { All (λ v. v < length self.now.packages) result.now }
    {
        &self.shared.as_ref().indices.members.places
    }

    /// The place of each default member's package, in their order.
    pub fn default_members(&self) -> &[usize]
        ensures value { result.now ≡ map (place_among (ids_of self.now.packages))
            self.now.workspace.default_members }
        ensures within { All (λ v. v < length self.now.packages) result.now }
    {
        &self.shared.as_ref().indices.members.defaults
    }

    /// The first link from one package to another, in the order of the record.
    pub fn link_between(&self, from: usize, to: usize) -> Option<usize>
        requires { from < length self.now.packages }
        ensures some { IfSome result (IsFirstBetween from to (numbered_links self.now)) }
        ensures none { IfNone result (IsClear from to (numbered_links self.now)
            (length self.now.links)) }
    {
        first_link_between(self.graph(), from, to)
    }
}

/// The record with what is found in its packages and workspace at once, for tables to share.
fn shared_rows(
    alloc: Global,
    rows: Rc<WorkspaceRecord>,
    versions: Vec<Version>,
) -> Result<Rc<SharedRows>, AllocError>
    requires kept { ArePackagesKept rows.value.packages rows.value.workspace }
    requires read { AreVersionsOf rows.value.packages versions.items }
    ensures rows { IfOk result (λ shared. shared.value.rows ≡ rows) }
    ensures indexed { IfOk result (λ shared. IndexesPackages rows.value.packages
        rows.value.workspace shared.value.indices) }
{
    let record = rows.as_ref();
    let indices = package_indices(alloc, &record.packages, &record.workspace, versions)?;
    let shared = Rc::new(alloc, SharedRows { rows, indices })?;
    Ok(shared)
}

/// The path in the workspace of the member with a number, if there is one.
fn member_path(workspace: &WorkspaceRow, number: usize) -> Option<&str>
    ensures { option_map (λ p. p.now) result
        ≡ option_map (λ m. m.path) (slice_get workspace.now.members number) }
{
    let member = member_at(&workspace.members, number)?;
    Some(member.path.as_str())
}

fn first_link_between(graph: &Graph, from: usize, to: usize) -> Option<usize>
    requires { from < graph.now.nodes }
    ensures some { IfSome result (IsFirstBetween from to graph.now.links) }
    ensures none { IfNone result (IsClear from to graph.now.links (length graph.now.links)) }
{
    let mut next = graph.first_link(Direction::Forward, from);
    while let Some(number) = next {
        if graph.far(Direction::Forward, number) == to {
            return Some(number);
        }
        next = graph.next_link(Direction::Forward, number);
    }
    None
}
