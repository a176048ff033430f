//! What a link's row says, with guppy's names.

ghost use Rattle.std.specs.Prelude.{◌≡◌, Ok, filter, map, not, option_map};
ghost use Rattle.std.specs.List.{list_any};
ghost use Rattle.semver.specs.Identifiers.{comparator_view};
ghost use Rattle.semver.specs.Parse.{req_of};
ghost use Rattle.guppy_package_parts.specs.DependencyKinds.{line_kind_of};
ghost use Rattle.guppy_package_parts.specs.Lines.{is_kind};
ghost use Rattle.guppy_package_parts.specs.RequirementViews.{requirement_lines};
ghost use Rattle.workspace_record.specs.declared.kinds.LineKind.TheVariants.{Normal, Build, Dev};
ghost use Rattle.guppy_package_table.specs.LinkRows.{is_dev_only, name_in_rust};

use guppy_package_parts::{DependencyKind, DependencyReq, LineKind, LineRow, LinkRow};
use semver::VersionReq;

/// What the row of one link says.
#[derive(Clone, Copy, Debug)]
pub struct LinkDetails<'g> {
    row: &'g LinkRow,
    requirement: &'g VersionReq,
    resolved_name: &'g str,
    ghost read: { req_of row.now.requirement ≡ Ok (map comparator_view requirement.now.comparators.items) },
    ghost resolved: { resolved_name.now ≡ name_in_rust row.now.name },
}

impl<'g> LinkDetails<'g> {
    ghost use Rattle.guppy_package_table.specs.LinkDetailsViews.{row_of};

    /// The details of a row whose requirement was read.
    pub(crate) fn of(
        row: &'g LinkRow,
        requirement: &'g VersionReq,
        resolved_name: &'g str,
    ) -> LinkDetails<'g>
        requires read { req_of row.now.requirement
            ≡ Ok (map comparator_view requirement.now.comparators.items) }
        requires resolved { resolved_name.now ≡ name_in_rust row.now.name }
        ensures { row_of result ≡ row.entry.now }
    {
        LinkDetails {
            row,
            requirement,
            resolved_name,
        }
    }

    /// The name of the dependency in the manifest.
    pub fn dep_name(&self) -> &'g str
        ensures { result.now ≡ (row_of self.now).name }
    {
        let row = self.row;
        row.name.as_str()
    }

    /// The name in Rust code: each `-` is `_`.
    pub fn resolved_name(&self) -> &'g str
        ensures { result.now ≡ name_in_rust (row_of self.now).name }
    {
        self.resolved_name
    }

    /// What `semver` reads in the row's requirement.
    pub fn version_req(&self) -> &'g VersionReq
        ensures { req_of (row_of self.now).requirement
            ≡ Ok (map comparator_view result.now.comparators.items) }
    {
        self.requirement
    }

    /// The registry that the manifest names for the dependency.
    pub fn registry(&self) -> Option<&'g str>
        ensures { option_map (λ t. t.now) result ≡ (row_of self.now).registry }
    {
        let row = self.row;
        row.registry.as_deref()
    }

    /// The path that the manifest names for the dependency.
    pub fn path(&self) -> Option<&'g str>
        ensures { option_map (λ t. t.now) result ≡ (row_of self.now).path }
    {
        let row = self.row;
        row.path.as_deref()
    }

    /// The lines, in the row's order.
    pub fn lines(&self) -> &'g [LineRow]
        ensures { result.now ≡ (row_of self.now).lines }
    {
        let row = self.row;
        row.lines.as_slice()
    }

    /// What the normal lines require.
    pub fn normal(&self) -> DependencyReq<'g>
        ensures { requirement_lines result ≡ filter (is_kind Normal) (row_of self.now).lines }
    {
        DependencyReq::of(self.row, DependencyKind::Normal)
    }

    /// What the build lines require.
    pub fn build(&self) -> DependencyReq<'g>
        ensures { requirement_lines result ≡ filter (is_kind Build) (row_of self.now).lines }
    {
        DependencyReq::of(self.row, DependencyKind::Build)
    }

    /// What the development lines require.
    pub fn dev(&self) -> DependencyReq<'g>
        ensures { requirement_lines result ≡ filter (is_kind Dev) (row_of self.now).lines }
    {
        DependencyReq::of(self.row, DependencyKind::Development)
    }

    /// What the lines of a kind require.
    pub fn req_for_kind(&self, kind: DependencyKind) -> DependencyReq<'g>
        ensures { requirement_lines result
            ≡ filter (is_kind (line_kind_of kind)) (row_of self.now).lines }
    {
        DependencyReq::of(self.row, kind)
    }

    /// Whether no line is normal or build.
    pub fn dev_only(&self) -> bool
        ensures { result ≡ is_dev_only (row_of self.now) }
    {
        is_dev_only(self.row)
    }
}

/// Whether no line of the link is normal or build.
pub(crate) fn is_dev_only(row: &LinkRow) -> bool
    ensures { result ≡ is_dev_only row.now }
{
    row.lines.iter().all(|line| line.kind == LineKind::Dev)
}
