//! Members of a set in the order of a listing, from both ends.

ghost use Rattle.std.specs.Prelude.{◌≡◌, ℕ, Bool, List, ◌&&◌, ◌++◌, ◌∷◌, [], MatchOption, filter, length};
ghost use Rattle.numbered_graph.specs.declared.link.Link.{Link};
ghost use Rattle.numbered_graph.specs.Listings.{IsListing};
ghost use Rattle.numbered_graph.specs.ListedViews.{in_direction, listed_left};
ghost use Rattle.numbered_graph.specs.Sets.{has};

use crate::direction::Direction;
use crate::node_set::NodeSet;

/// The nodes of a listing that are in a set, in the order of the listing, or in reverse in that list
/// reversed. It takes no memory, and all its steps together take time in proportion to the listing.
#[derive(Clone, Copy)]
pub struct Listed<'a> {
    listing: &'a [usize],
    members: &'a NodeSet,
    direction: Direction,
}

impl<'a> Listed<'a> {
    /// Those of the listing's nodes that are in the set.
    pub fn new(listing: &'a [usize], members: &'a NodeSet, direction: Direction) -> Listed<'a>
        ensures listed { listed_left result ≡ in_direction direction
            (filter (has members.entry.now) listing.entry.now) }
        ensures listing { (links : List Link) (firm all : ℕ → Bool) →
            IsListing links firm all listing.entry.now
            → IsListing links firm (λ v. all v && has members.entry.now v)
            (filter (has members.entry.now) listing.entry.now) }
    {
        Listed {
            listing,
            members,
            direction,
        }
    }
}

// The first member in a listing, and what follows it.
fn first_member<'a>(listing: &'a [usize], members: &NodeSet) -> Option<(usize, &'a [usize])>
    ensures { MatchOption result (filter (has members.now) listing.entry.now ≡ [])
        (λ p. filter (has members.now) listing.entry.now ≡ p.0 ∷ filter (has members.now) p.1.now) }
{
    let mut left = listing;
    while let Some((node, others)) = left.split_first() {
        if members.contains(*node) {
            return Some((*node, others));
        }
        left = others;
    }
    None
}

// The last member in a listing, and what stands before it.
fn last_member<'a>(listing: &'a [usize], members: &NodeSet) -> Option<(usize, &'a [usize])>
    ensures { MatchOption result (filter (has members.now) listing.entry.now ≡ [])
        (λ p. filter (has members.now) listing.entry.now
        ≡ filter (has members.now) p.1.now ++ p.0 ∷ []) }
{
    let mut left = listing;
    while let Some((node, others)) = left.split_last() {
        if members.contains(*node) {
            return Some((*node, others));
        }
        left = others;
    }
    None
}

fn member_count(listing: &[usize], members: &NodeSet) -> usize
    ensures { result ≡ length (filter (has members.now) listing.now) }
{
    listing
        .iter()
        .filter(|node| members.contains(**node))
        .count()
}

impl Iterator for Listed<'_> {
    type Item = usize;

    ghost use Rattle.std.specs.Iterator.{YieldsFirstBy, item_count};
    ghost use Rattle.numbered_graph.specs.ListedViews.{listed_left};

    ghost next_gives = { YieldsFirstBy (λ node. node) listed_left };

    ghost remaining = { item_count listed_left };

    fn next(&mut self) -> Option<usize> {
        let (node, others) = match self.direction {
            Direction::Forward => first_member(self.listing, self.members)?,
            Direction::Reverse => last_member(self.listing, self.members)?,
        };
        self.listing = others;
        Some(node)
    }

    fn size_hint(&self) -> (usize, Option<usize>) {
        let count = member_count(self.listing, self.members);
        (count, Some(count))
    }
}

impl DoubleEndedIterator for Listed<'_> {
    ghost use Rattle.std.specs.Iterator.{YieldsLastBy};
    ghost use Rattle.numbered_graph.specs.ListedViews.{listed_left};

    ghost next_back_gives = { YieldsLastBy (λ node. node) listed_left };

    fn next_back(&mut self) -> Option<usize> {
        let (node, others) = match self.direction {
            Direction::Forward => last_member(self.listing, self.members)?,
            Direction::Reverse => first_member(self.listing, self.members)?,
        };
        self.listing = others;
        Some(node)
    }
}

impl ExactSizeIterator for Listed<'_> {
    fn len(&self) -> usize {
        member_count(self.listing, self.members)
    }
}
