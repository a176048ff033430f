//! Links between a package and another.

ghost use Rattle.std.specs.Prelude.{◌≡◌, ◌<◌, length};
ghost use Rattle.numbered_graph.specs.declared.direction.Direction.TheVariants as numbered;
ghost use Rattle.guppy_package_table.specs.Tables.{numbered_links};
ghost use Rattle.guppy_package_parts.specs.declared.dependency_direction.DependencyDirection.TheVariants.{Forward, Reverse};
ghost use Rattle.guppy_package_graph.specs.DirectViews.{direct_graph_of, links_left, links_of_place};
ghost use Rattle.guppy_package_graph.specs.Directions.{direction_of};
ghost use Rattle.guppy_package_graph.specs.LinkAnswers.{AnswersLink, SaysFirst};
ghost use Rattle.guppy_package_graph.specs.Views.{graph_of, place_of};

use crate::dependency_direction::direction_of;
use crate::direct_links::DirectLinks;
use crate::package_graph::PackageGraph;
use crate::package_link::PackageLink;
use crate::package_metadata::PackageMetadata;
use guppy_package_parts::{DependencyDirection, Error, PackageId};

impl<'g> PackageMetadata<'g> {
    /// The first link from this package to another in the order of the record, or in Reverse the first
    /// one from that to this.
    pub fn link_between(
        &self,
        package_id: &PackageId,
        direction: DependencyDirection,
    ) -> Result<Option<PackageLink<'g>>, Error>
        ensures answer { AnswersLink (graph_of self.now) (place_of self.now) direction
            package_id.now result }
    {
        let (graph, place) = (self.graph(), self.place());
        match graph.place_of(package_id) {
            Ok(other) => match direction {
                DependencyDirection::Forward => Ok(first_link(graph, place, other)),
                DependencyDirection::Reverse => Ok(first_link(graph, other, place)),
            },
            Err(error) => Err(error),
        }
    }

    /// The first link from this package to another.
    pub fn link_to(&self, package_id: &PackageId) -> Result<Option<PackageLink<'g>>, Error>
        ensures answer { AnswersLink (graph_of self.now) (place_of self.now) Forward package_id.now
            result }
    {
        self.link_between(package_id, DependencyDirection::Forward)
    }

    /// The first link from another package to this.
    pub fn link_from(&self, package_id: &PackageId) -> Result<Option<PackageLink<'g>>, Error>
        ensures answer { AnswersLink (graph_of self.now) (place_of self.now) Reverse package_id.now
            result }
    {
        self.link_between(package_id, DependencyDirection::Reverse)
    }

    /// The links from this package to those that it depends on, or in Reverse the links from those
    /// that depend on it, in the order of the record.
    pub fn direct_links_directed(&self, direction: DependencyDirection) -> DirectLinks<'g>
        ensures graph { direct_graph_of result ≡ graph_of self.now }
        ensures links { links_left result ≡ links_of_place (numbered_links (graph_of self.now))
            (direction_of direction) (place_of self.now) }
    {
        DirectLinks::of(self.graph(), self.place(), direction_of(direction))
    }

    /// The links from this package to those that it depends on.
    pub fn direct_links(&self) -> DirectLinks<'g>
        ensures graph { direct_graph_of result ≡ graph_of self.now }
        ensures links { links_left result ≡ links_of_place (numbered_links (graph_of self.now))
            numbered.Forward (place_of self.now) }
    {
        self.direct_links_directed(DependencyDirection::Forward)
    }

    /// The links from the packages that depend on this one.
    pub fn reverse_direct_links(&self) -> DirectLinks<'g>
        ensures graph { direct_graph_of result ≡ graph_of self.now }
        ensures links { links_left result ≡ links_of_place (numbered_links (graph_of self.now))
            numbered.Reverse (place_of self.now) }
    {
        self.direct_links_directed(DependencyDirection::Reverse)
    }
}

fn first_link(graph: &PackageGraph, from: usize, to: usize) -> Option<PackageLink<'_>>
    requires { from < length graph.now.packages }
    ensures { SaysFirst graph.now from to result }
{
    let number = graph.table().link_between(from, to)?;
    Some(graph.link_at(number))
}
