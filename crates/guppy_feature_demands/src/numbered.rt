//! Links and lines, each with its place in the record.

ghost use Rattle.std.specs.Prelude.{◌≡◌, IfOk, map};
ghost use Rattle.guppy_feature_demands.specs.Numbered.{numbered};
ghost use Rattle.guppy_feature_demands.specs.NumberedViews.{ends_view};

use crate::hashed_id::HashedId;
use crate::link_ends::LinkEnds;
use guppy_package_parts::{LineRow, LinkRow};
use std::alloc::{AllocError, Global};

/// A link's row and its number.
#[derive(Clone, Copy)]
pub(crate) struct NumberedLink<'g> {
    pub number: usize,
    pub row: &'g LinkRow,
}

/// A line's row, the number of its link, and its own in the link.
#[derive(Clone, Copy)]
pub(crate) struct LineAt<'g> {
    pub place: (usize, usize),
    pub row: &'g LineRow,
}

pub(crate) fn numbered_links<'g>(
    alloc: Global,
    links: &'g [LinkRow],
) -> Result<Vec<LinkEnds<'g>>, AllocError>
    ensures { IfOk result (λ v. map ends_view v.items ≡ numbered links.entry.now) }
{
    let mut all: Vec<LinkEnds<'g>> = Vec::with_capacity(alloc, links.len())?;
    let mut last = HashedId::of("");
    for (number, row) in links.iter().enumerate() {
        let ends = LinkEnds::of(NumberedLink { number, row }, last);
        last = ends.from;
        all.push(ends)?;
    }
    Ok(all)
}
