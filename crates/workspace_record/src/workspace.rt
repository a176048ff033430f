//! The workspace, its members and groups.

ghost use Rattle.std.specs.Prelude.{◌≡◌, IfOk, map};

use crate::link::{LinkRecord, copy_links};
use crate::package::{PackageRecord, copy_packages};
use crate::texts::{copy_each, copy_text, same_text, same_texts};
use list_facts::copy_texts;
use std::alloc::{AllocError, Global};
use std::marker::Model;

/// A member of the workspace: a package id, and the package's folder.
#[derive(Debug, Drop)]
pub struct MemberRecord {
    pub package: String,
    pub path: String,
}

impl Model for MemberRecord {
    ghost use Rattle.std.specs.Prelude.{string_bytes};
    ghost use Rattle.workspace_record.specs.Records.{Member};

    ghost Value = { Member };

    ghost view = { λ m. record { package_id = string_bytes m.package; path = string_bytes m.path } };
}

impl PartialEq for MemberRecord {
    ghost use Rattle.workspace_record.specs.RecordEquality.{member_eq, members_decide};
    ghost use Rattle.workspace_record.specs.Equality.{equivalence};
    ghost use Rattle.std.specs.Cmp.{partial_equiv_from_equiv};

    ghost eq = { member_eq };

    ghost laws = { partial_equiv_from_equiv (equivalence members_decide) };

    fn eq(&self, other: &MemberRecord) -> bool {
        self.package == other.package && self.path == other.path
    }
}

impl Eq for MemberRecord {
    ghost use Rattle.workspace_record.specs.RecordEquality.{members_decide};
    ghost use Rattle.workspace_record.specs.Equality.{equivalence};

    ghost laws = { equivalence members_decide };
}

impl MemberRecord {
    /// An equal value in memory of its own.
    pub fn copy(&self, alloc: Global) -> Result<MemberRecord, AllocError>
        ensures { IfOk result (λ m. m ≡ self.now) }
    {
        let package = String::from_str(alloc, self.package.as_str())?;
        let path = String::from_str(alloc, self.path.as_str())?;
        Ok(MemberRecord { package, path })
    }
}

/// The workspace: its folders, its members, the members that commands work on by default, and its
/// metadata as compact JSON.
#[derive(Debug, Drop)]
pub struct WorkspaceInfo {
    pub root: String,
    pub target_directory: String,
    pub build_directory: Option<String>,
    pub members: Vec<MemberRecord>,
    pub default_members: Vec<String>,
    pub metadata: Option<String>,
}

impl Model for WorkspaceInfo {
    ghost use Rattle.std.specs.Prelude.{map, option_map, string_bytes};
    ghost use Rattle.workspace_record.specs.Records.{WorkspaceDetails};

    ghost Value = { WorkspaceDetails };

    ghost view = { λ w. record {
      root = string_bytes w.root;
      target_directory = string_bytes w.target_directory;
      build_directory = option_map string_bytes w.build_directory;
      members = w.members.items;
      default_members = map string_bytes w.default_members.items;
      metadata = option_map string_bytes w.metadata;
    } };
}

impl PartialEq for WorkspaceInfo {
    ghost use Rattle.workspace_record.specs.RecordEquality.{workspace_details_eq, workspace_details_decide};
    ghost use Rattle.workspace_record.specs.Equality.{equivalence};
    ghost use Rattle.std.specs.Cmp.{partial_equiv_from_equiv};

    ghost eq = { workspace_details_eq };

    ghost laws = { partial_equiv_from_equiv (equivalence workspace_details_decide) };

    fn eq(&self, other: &WorkspaceInfo) -> bool {
        self.root == other.root
            && self.target_directory == other.target_directory
            && same_text(&self.build_directory, &other.build_directory)
            && self.members == other.members
            && same_texts(&self.default_members, &other.default_members)
            && same_text(&self.metadata, &other.metadata)
    }
}

impl Eq for WorkspaceInfo {
    ghost use Rattle.workspace_record.specs.RecordEquality.{workspace_details_decide};
    ghost use Rattle.workspace_record.specs.Equality.{equivalence};

    ghost laws = { equivalence workspace_details_decide };
}

impl WorkspaceInfo {
    /// An equal value in memory of its own.
    pub fn copy(&self, alloc: Global) -> Result<WorkspaceInfo, AllocError>
        ensures { IfOk result (λ w. w ≡ self.now) }
    {
        Ok(WorkspaceInfo {
            root: String::from_str(alloc, self.root.as_str())?,
            target_directory: String::from_str(alloc, self.target_directory.as_str())?,
            members: copy_each(alloc, &self.members, |member| member.copy(alloc))?,
            default_members: copy_texts(alloc, &self.default_members)?,
            build_directory: copy_text(alloc, &self.build_directory)?,
            metadata: copy_text(alloc, &self.metadata)?,
        })
    }

    /// The package ids of the members, in order.
    pub fn member_ids<'a>(&'a self, alloc: Global) -> Result<Vec<&'a str>, AllocError>
        ensures { IfOk result (λ v. map (λ t. t.now) v.items
            ≡ map (λ m. m.package_id) self.entry.now.members) }
    {
        self.members
            .iter()
            .map(|member| member.package.as_str())
            .collect(alloc)
    }
}

/// A test group: its name, and the filter of the tests that may stand in it.
#[derive(Debug, Drop)]
pub struct GroupRecord {
    pub name: String,
    pub filter: String,
}

impl Model for GroupRecord {
    ghost use Rattle.std.specs.Prelude.{string_bytes};
    ghost use Rattle.workspace_record.specs.Records.{Group};

    ghost Value = { Group };

    ghost view = { λ g. record { name = string_bytes g.name; filter = string_bytes g.filter } };
}

impl PartialEq for GroupRecord {
    ghost use Rattle.workspace_record.specs.RecordEquality.{group_eq, groups_decide};
    ghost use Rattle.workspace_record.specs.Equality.{equivalence};
    ghost use Rattle.std.specs.Cmp.{partial_equiv_from_equiv};

    ghost eq = { group_eq };

    ghost laws = { partial_equiv_from_equiv (equivalence groups_decide) };

    fn eq(&self, other: &GroupRecord) -> bool {
        self.name == other.name && self.filter == other.filter
    }
}

impl Eq for GroupRecord {
    ghost use Rattle.workspace_record.specs.RecordEquality.{groups_decide};
    ghost use Rattle.workspace_record.specs.Equality.{equivalence};

    ghost laws = { equivalence groups_decide };
}

impl GroupRecord {
    /// An equal value in memory of its own.
    pub fn copy(&self, alloc: Global) -> Result<GroupRecord, AllocError>
        ensures { IfOk result (λ g. g ≡ self.now) }
    {
        let name = String::from_str(alloc, self.name.as_str())?;
        let filter = String::from_str(alloc, self.filter.as_str())?;
        Ok(GroupRecord { name, filter })
    }
}

/// The packages of a workspace and those that it depends on, with the links among them, and the
/// filters of its test runner.
#[derive(Debug, Drop)]
pub struct WorkspaceRecord {
    pub packages: Vec<PackageRecord>,
    pub links: Vec<LinkRecord>,
    pub workspace: WorkspaceInfo,
    pub groups: Vec<GroupRecord>,
    pub default_filter: Option<String>,
}

impl Model for WorkspaceRecord {
    ghost use Rattle.std.specs.Prelude.{option_map, string_bytes};
    ghost use Rattle.workspace_record.specs.Records.{Workspace};

    ghost Value = { Workspace };

    ghost view = { λ w. record {
      packages = w.packages.items;
      links = w.links.items;
      workspace = w.workspace;
      groups = w.groups.items;
      default_filter = option_map string_bytes w.default_filter;
    } };
}

impl PartialEq for WorkspaceRecord {
    ghost use Rattle.workspace_record.specs.RecordEquality.{workspace_eq, workspaces_decide};
    ghost use Rattle.workspace_record.specs.Equality.{equivalence};
    ghost use Rattle.std.specs.Cmp.{partial_equiv_from_equiv};

    ghost eq = { workspace_eq };

    ghost laws = { partial_equiv_from_equiv (equivalence workspaces_decide) };

    fn eq(&self, other: &WorkspaceRecord) -> bool {
        self.packages == other.packages
            && self.links == other.links
            && self.workspace == other.workspace
            && self.groups == other.groups
            && same_text(&self.default_filter, &other.default_filter)
    }
}

impl Eq for WorkspaceRecord {
    ghost use Rattle.workspace_record.specs.RecordEquality.{workspaces_decide};
    ghost use Rattle.workspace_record.specs.Equality.{equivalence};

    ghost laws = { equivalence workspaces_decide };
}

impl WorkspaceRecord {
    /// An equal value in memory of its own.
    pub fn copy(&self, alloc: Global) -> Result<WorkspaceRecord, AllocError>
        ensures { IfOk result (λ w. w ≡ self.now) }
    {
        Ok(WorkspaceRecord {
            groups: copy_each(alloc, &self.groups, |group| group.copy(alloc))?,
            links: copy_links(alloc, &self.links)?,
            packages: copy_packages(alloc, &self.packages)?,
            default_filter: copy_text(alloc, &self.default_filter)?,
            workspace: self.workspace.copy(alloc)?,
        })
    }
}
