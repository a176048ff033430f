//! The links of a record, each with its number, and by the names that packages give them.

ghost use Rattle.std.specs.Prelude.{◌≡◌, [], IfNone, IfOk, IfSome, map};
ghost use Rattle.guppy_feature_demands.specs.Numbered.{links_named, numbered};
ghost use Rattle.guppy_feature_demands.specs.NumberedViews.{ends_view, link_view};

use crate::hashed_id::HashedId;
use crate::link_ends::LinkEnds;
use crate::link_names::{LinkName, LinkNames, link_names};
use crate::numbered::{NumberedLink, numbered_links};
use guppy_package_parts::LinkRow;
use std::alloc::{AllocError, Global};
use std::marker::Model;

/// Links with their numbers.
pub(crate) struct LinkTable<'g> {
    all: Vec<LinkEnds<'g>>,
    names: LinkNames<'g>,
}

// Written out, so that a function that lets one go takes one step.
impl Drop for LinkTable<'_> {
    fn drop(self) {
        let LinkTable { all: _, names: _ } = self;
    }
}

impl<'g> Model for LinkTable<'g> {
    ghost use Rattle.std.specs.Prelude.{ℕ, List, map};
    ghost use Rattle.workspace_record.specs.Records.{Link};
    ghost use Rattle.guppy_feature_demands.specs.LinkNames.{NamesLinks};
    ghost use Rattle.guppy_feature_demands.specs.NumberedViews.{ends_view};

    ghost Value = { List (ℕ × Link) };

    ghost view = { λ t. map ends_view t.all.items };

    ghost invariant = { λ t. NamesLinks (map ends_view t.all.items) t.names };
}

impl<'g> LinkTable<'g> {
    /// These links, numbered in their order.
    pub(crate) fn of(alloc: Global, links: &'g [LinkRow]) -> Result<LinkTable<'g>, AllocError>
        ensures links { IfOk result (λ t. t ≡ numbered links.entry.now) }
    {
        let all = numbered_links(alloc, links)?;
        let names = link_names(alloc, &all)?;
        Ok(LinkTable { all, names })
    }

    /// All links.
    pub(crate) fn all(&self) -> &[LinkEnds<'g>]
        ensures { map ends_view result.now ≡ self.now }
    {
        &self.all
    }

    /// The package's links under a name, if there are any.
    pub(crate) fn named(&self, id: HashedId<'g>, name: &'g str) -> Option<&[NumberedLink<'g>]>
        ensures some { IfSome result (λ group. map link_view group.now
            ≡ links_named self.now id.entry.text.now name.entry.now) }
        ensures none { IfNone result (links_named self.now id.entry.text.now name.entry.now ≡ []) }
    {
        self.names.links(LinkName::of(id, name))
    }
}
