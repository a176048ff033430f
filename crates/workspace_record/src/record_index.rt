//! A record, with what is found in it at once.

ghost use Rattle.std.specs.Prelude.{◌≡◌, [], IfNone, IfOk, IfSome, map};
ghost use Rattle.std.specs.Option.{option_copied};
ghost use Rattle.workspace_record.specs.Packages.{first_of_each, is_member, is_workspace_package, package_of};
ghost use Rattle.workspace_record.specs.LinkNames.{link_view, links_named};

use crate::link_names::{LentLink, LinkName, LinkNames, link_names};
use crate::package_index::PackageIndex;
use crate::packages_by_id::packages_by_id;
use crate::text_sets::text_set;
use crate::workspace::WorkspaceRecord;
use indexmap::{IndexMap, IndexSet};
use std::alloc::{AllocError, Global};
use std::marker::Model;

/// A record, whose packages, members and links are found by a map. In contracts it is the record.
pub struct RecordIndex<'a> {
    record: &'a WorkspaceRecord,
    packages: IndexMap<&'a str, PackageIndex<'a>>,
    members: IndexSet<&'a str>,
    links: LinkNames<'a>,
}

// Written out, so that a function that lets one go takes one step.
impl Drop for RecordIndex<'_> {
    fn drop(self) {
        let RecordIndex {
            record: _,
            packages,
            members,
            links,
        } = self;
        drop(packages);
        drop(members);
        drop(links);
    }
}

impl<'a> Model for RecordIndex<'a> {
    ghost use Rattle.workspace_record.specs.Records.{Workspace};
    ghost use Rattle.workspace_record.specs.Indices.{Indexes};

    ghost Value = { Workspace };

    ghost view = { λ r. r.record.now };

    ghost invariant = { λ r. Indexes r.record.now r.packages r.members r.links };
}

impl<'a> RecordIndex<'a> {
    /// Takes time in proportion to the packages, features, members and links of the record.
    pub fn of(alloc: Global, record: &'a WorkspaceRecord) -> Result<RecordIndex<'a>, AllocError>
        ensures made { IfOk result (λ r. r ≡ «record».entry.now) }
    {
        let links = link_names(alloc, &record.links)?;
        let packages = packages_by_id(alloc, &record.packages)?;
        let members = text_set(alloc, &record.workspace.members, |member| {
            member.package.as_str()
        });
        match members {
            Ok(members) => Ok(RecordIndex {
                record,
                packages,
                members,
                links,
            }),
            Err(refused) => {
                drop(packages);
                Err(refused)
            }
        }
    }

    /// The record.
    pub fn record(&self) -> &'a WorkspaceRecord
        ensures value { result.now ≡ self.now }
    {
        self.record
    }

    /// The packages in the order of the record; of packages with one id the first.
    pub fn packages(&self) -> &[PackageIndex<'a>]
        ensures value { result.now ≡ first_of_each self.now.packages }
    {
        self.packages.values().as_slice()
    }

    /// The package with this id; of several the first.
    pub fn package_of(&self, id: &str) -> Option<&PackageIndex<'a>>
        ensures value { option_copied result ≡ package_of self.now id.now }
    {
        self.packages.get(id)
    }

    /// Whether the id stands among the members.
    pub fn is_member(&self, id: &str) -> bool
        ensures answer { result ≡ is_member self.now id.now }
    {
        self.members.contains(id)
    }

    /// Whether the id is that of a package and of a member.
    pub fn is_workspace_package(&self, id: &str) -> bool
        ensures answer { result ≡ is_workspace_package self.now id.now }
    {
        self.packages.contains_key(id) && self.is_member(id)
    }

    /// The links of the package with this id under the name that it gives them, in the order of the
    /// record, if there are any.
    pub fn links_named(&self, from: &'a str, name: &'a str) -> Option<&[LentLink<'a>]>
        ensures some { IfSome result (λ group. map link_view group.now
            ≡ links_named self.now.links from.entry.now name.entry.now) }
        ensures none { IfNone result (links_named self.now.links from.entry.now name.entry.now
            ≡ []) }
    {
        self.links.links(LinkName { from, name })
    }
}
