//! The links of packages by the names that they give them.

ghost use Rattle.std.specs.Prelude.{◌≡◌, ◌++◌, ◌∷◌, [], IfNone, IfOk, IfSome, OnOk, map};
ghost use Rattle.indexmap.specs.IndexMap.{get};
ghost use Rattle.workspace_record.specs.Records.{Text};
ghost use Rattle.guppy_feature_demands.specs.LinkNames.{IsNameOf, NamesLinks, key_eq, links_in};
ghost use Rattle.guppy_feature_demands.specs.Numbered.{links_named};
ghost use Rattle.guppy_feature_demands.specs.NumberedViews.{ends_view, link_view};
ghost use Rattle.guppy_feature_demands.specs.declared.link_names.LinkName.{LinkName};

use crate::hashed_id::HashedId;
use crate::link_ends::LinkEnds;
use crate::numbered::NumberedLink;
use indexmap::IndexMap;
use std::alloc::{AllocError, Global};
use std::hash::{Hash, Hasher};

/// A package's id with its hash, and the name of a dependency.
#[derive(Clone, Copy)]
pub(crate) struct LinkName<'g> {
    pub hash: u64,
    pub from: &'g str,
    pub name: &'g str,
}

impl PartialEq for LinkName<'_> {
    ghost use Rattle.std.specs.Cmp.{partial_equiv_from_equiv};
    ghost use Rattle.guppy_feature_demands.specs.LinkNames.{key_eq, keys_equivalence};

    ghost eq = { key_eq };

    ghost laws = { partial_equiv_from_equiv keys_equivalence };

    fn eq(&self, other: &Self) -> bool {
        self.hash == other.hash && (self.from == other.from && self.name == other.name)
    }
}

impl Eq for LinkName<'_> {
    ghost use Rattle.guppy_feature_demands.specs.LinkNames.{keys_equivalence};

    ghost laws = { keys_equivalence };
}

impl Hash for LinkName<'_> {
    ghost use Rattle.guppy_feature_demands.specs.LinkNames.{key_view, key_writes, same_key_writes};

    ghost hash_input = { λ q. key_writes (key_view q) };

    ghost respects_eq = { same_key_writes };

    fn hash<H: Hasher>(&self, state: &mut H) {
        state.write_u64(self.hash);
        state.write(self.name.as_bytes());
    }
}

impl<'g> LinkName<'g> {
    /// The name of a dependency of this package.
    pub(crate) fn of(id: HashedId<'g>, name: &'g str) -> LinkName<'g>
        ensures { IsNameOf id.entry.text.now name.entry.now result }
    {
        LinkName {
            hash: id.hash,
            from: id.text,
            name,
        }
    }
}

/// The links of each name.
pub(crate) struct LinkNames<'g> {
    groups: IndexMap<LinkName<'g>, Vec<NumberedLink<'g>>>,
}

// Written out, so that a function that lets one go takes one step.
impl Drop for LinkNames<'_> {
    fn drop(self) {
        let LinkNames { groups } = self;
        drop(groups);
    }
}

impl<'g> LinkNames<'g> {
    /// The package's links under a name, if there are any.
    pub(crate) fn links(&self, key: LinkName<'g>) -> Option<&[NumberedLink<'g>]>
        ensures some { IfSome result (λ group. map link_view group.now
            ≡ links_in (get key_eq self.now.groups key.entry)) }
        ensures none { IfNone result (links_in (get key_eq self.now.groups key.entry) ≡ []) }
    {
        let group = self.groups.get(&key)?;
        Some(group.as_slice())
    }
}

pub(crate) fn link_names<'g>(
    alloc: Global,
    links: &[LinkEnds<'g>],
) -> Result<LinkNames<'g>, AllocError>
    ensures { IfOk result (NamesLinks (map ends_view links.now)) }
{
    let mut names: LinkNames<'g> = LinkNames {
        groups: IndexMap::with_capacity(alloc, links.len())?,
    };
    for ends in links {
        push_link(alloc, &mut names, *ends)?;
    }
    Ok(names)
}

fn push_link<'g>(
    alloc: Global,
    names: &mut LinkNames<'g>,
    ends: LinkEnds<'g>,
) -> Result<(), AllocError>
    ensures { OnOk result ((id name : Text) (q : LinkName) → IsNameOf id name q
        → links_in (get key_eq names.new.groups q)
        ≡ links_in (get key_eq names.old.groups q)
        ++ links_named (ends_view ends.entry ∷ []) id name) }
{
    let link = ends.at;
    let row = link.row;
    let key = LinkName::of(ends.from, row.name.as_str());
    let group = names.groups.entry(key)?.or_insert(Vec::new(alloc));
    group.push(link)?;
    Ok(())
}
