//! The iterator over a package's own links.

ghost use Rattle.std.specs.Prelude.{◌≡◌, ◌<◌, IfSome, length};
ghost use Rattle.std.proofs.Props.{props};
ghost use Rattle.numbered_graph.specs.Links.{near_at};
ghost use Rattle.guppy_package_table.specs.Tables.{numbered_links};

use crate::package_graph::PackageGraph;
use crate::package_link::PackageLink;
use list_facts::write_entries;
use numbered_graph::Direction;
use std::fmt;

/// The links that are followed from a package in a direction, in the order of the record.
#[derive(Clone, Copy)]
pub struct DirectLinks<'g> {
    graph: &'g PackageGraph,
    place: usize,
    direction: Direction,
    next: Option<usize>,
    ghost in_range: { IfSome next (λ j. (j < length graph.now.links) × (near_at direction (numbered_links graph.now) j ≡ place)) } by { Prim.hlevel props },
}

impl<'g> DirectLinks<'g> {
    ghost use Rattle.std.specs.Prelude.{◌≡◌, ◌<◌, length};
    ghost use Rattle.guppy_package_graph.specs.DirectViews.{direct_graph_of, links_left, links_of_place};

    pub(crate) fn of(graph: &'g PackageGraph, place: usize, direction: Direction) -> DirectLinks<'g>
        requires { place < length graph.now.packages }
        ensures graph { direct_graph_of result ≡ graph.entry.now }
        ensures links { links_left result ≡ links_of_place (numbered_links graph.entry.now)
            direction place }
    {
        let next = graph.table().graph().first_link(direction, place);
        DirectLinks {
            graph,
            place,
            direction,
            next,
        }
    }
}

impl<'g> Iterator for DirectLinks<'g> {
    type Item = PackageLink<'g>;

    ghost use Rattle.std.specs.Iterator.{YieldsFirstBy, item_count};
    ghost use Rattle.guppy_package_graph.specs.DirectViews.{all_links_left, seen_link};

    ghost next_gives = { YieldsFirstBy seen_link all_links_left };

    ghost remaining = { item_count all_links_left };

    fn next(&mut self) -> Option<PackageLink<'g>> {
        let number = self.next?;
        self.next = self.graph.table().graph().next_link(self.direction, number);
        Some(self.graph.link_at(number))
    }
}

/// Lists what is still to come.
impl fmt::Debug for DirectLinks<'_> {
    fn fmt<W: fmt::Write>(&self, f: &mut fmt::Formatter<W>) -> fmt::Result {
        write_entries(f, *self)
    }
}
