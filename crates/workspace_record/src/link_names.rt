//! The links of packages by the names that they give them.

ghost use Rattle.std.specs.Prelude.{◌≡◌, ◌++◌, ◌∷◌, [], IfNone, IfOk, IfSome, OnOk, map};
ghost use Rattle.indexmap.specs.IndexMap.{get};
ghost use Rattle.workspace_record.specs.LinkNames.{NamesLinks, key_eq, link_view, links_in, links_named};
ghost use Rattle.workspace_record.specs.declared.link_names.LinkName.{LinkName};

use crate::link::LinkRecord;
use indexmap::IndexMap;
use std::alloc::{AllocError, Global};
use std::hash::{Hash, Hasher};

/// A package's id, and the name of a dependency.
#[derive(Clone, Copy)]
pub(crate) struct LinkName<'a> {
    pub from: &'a str,
    pub name: &'a str,
}

impl PartialEq for LinkName<'_> {
    ghost use Rattle.std.specs.Cmp.{partial_equiv_from_equiv};
    ghost use Rattle.workspace_record.specs.LinkNames.{key_eq, keys_equivalence};

    ghost eq = { key_eq };

    ghost laws = { partial_equiv_from_equiv keys_equivalence };

    fn eq(&self, other: &Self) -> bool {
        self.from == other.from && self.name == other.name
    }
}

impl Eq for LinkName<'_> {
    ghost use Rattle.workspace_record.specs.LinkNames.{keys_equivalence};

    ghost laws = { keys_equivalence };
}

impl Hash for LinkName<'_> {
    ghost use Rattle.workspace_record.specs.LinkNames.{key_view, key_writes, same_key_writes};

    ghost hash_input = { λ q. key_writes (key_view q) };

    ghost respects_eq = { same_key_writes };

    fn hash<H: Hasher>(&self, state: &mut H) {
        self.from.hash(state);
        self.name.hash(state);
    }
}

/// A link of a record.
#[derive(Clone, Copy)]
pub struct LentLink<'a> {
    pub row: &'a LinkRecord,
}

/// The links of each name.
pub(crate) struct LinkNames<'a> {
    groups: IndexMap<LinkName<'a>, Vec<LentLink<'a>>>,
}

// Written out, so that a function that lets one go takes one step.
impl Drop for LinkNames<'_> {
    fn drop(self) {
        let LinkNames { groups } = self;
        drop(groups);
    }
}

impl<'a> LinkNames<'a> {
    /// The package's links under a name, in the order of the record, if there are any.
    pub(crate) fn links(&self, key: LinkName<'a>) -> Option<&[LentLink<'a>]>
        ensures some { IfSome result (λ group. map link_view group.now
            ≡ links_in (get key_eq self.now.groups key.entry)) }
        ensures none { IfNone result (links_in (get key_eq self.now.groups key.entry) ≡ []) }
    {
        let group = self.groups.get(&key)?;
        Some(group.as_slice())
    }
}

pub(crate) fn link_names<'a>(
    alloc: Global,
    links: &'a [LinkRecord],
) -> Result<LinkNames<'a>, AllocError>
    ensures { IfOk result (NamesLinks links.entry.now) }
{
    let mut names: LinkNames<'a> = LinkNames {
        groups: IndexMap::with_capacity(alloc, links.len())?,
    };
    for link in links {
        push_link(alloc, &mut names, link)?;
    }
    Ok(names)
}

fn push_link<'a>(
    alloc: Global,
    names: &mut LinkNames<'a>,
    link: &'a LinkRecord,
) -> Result<(), AllocError>
    ensures { OnOk result ((q : LinkName)
        → links_in (get key_eq names.new.groups q)
        ≡ links_in (get key_eq names.old.groups q)
        ++ links_named (link.entry.now ∷ []) q.from.now q.name.now) }
{
    let key = LinkName {
        from: link.from.as_str(),
        name: link.name.as_str(),
    };
    let group = names.groups.entry(key)?.or_insert(Vec::new(alloc));
    group.push(LentLink { row: link })?;
    Ok(())
}
