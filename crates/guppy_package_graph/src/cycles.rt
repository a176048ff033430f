//! Packages that depend on each other.

ghost use Rattle.std.specs.Prelude.{◌≡◌, IfOk};
ghost use Rattle.numbered_graph.specs.Cycles.{AreCycles, AreInListingOrder};
ghost use Rattle.numbered_graph.specs.declared.direction.Direction.TheVariants.{Forward};
ghost use Rattle.guppy_package_table.specs.Tables.{numbered_links};
ghost use Rattle.guppy_package_graph.specs.CycleViews.{cycles_graph_of, cycles_left};
ghost use Rattle.guppy_package_graph.specs.CycleValues.{AnswersCyclic};

use crate::all_cycles::AllCycles;
use crate::package_graph::PackageGraph;
use guppy_package_parts::{Error, PackageId};
use numbered_graph::{NumberedCycles, listed_cycles};
use std::alloc::{AllocError, Global};
use std::fmt;
use std::marker::Model;

/// The components of a graph with two or more packages or a link from a package to itself.
#[derive(Drop)]
pub struct Cycles<'g> {
    graph: &'g PackageGraph,
    cycles: NumberedCycles,
}

impl<'g> Model for Cycles<'g> {
    ghost use Rattle.guppy_package_graph.specs.CycleValues.{AreNumbered, CyclesValue};

    ghost Value = { CyclesValue };

    ghost view = { λ c. record { graph = c.graph.now; cycles = c.cycles.cycles } };

    ghost invariant = { λ c. AreNumbered c.graph.now c.cycles };
}

impl PackageGraph {
    /// The cycles of the graph, in the order of `packages(Forward)` of the set of all packages.
    pub fn cycles(&self, alloc: Global) -> Result<Cycles<'_>, AllocError>
        ensures graph { IfOk result (λ c. c.graph ≡ self.now) }
        ensures cycles { IfOk result (λ c. AreCycles Forward (numbered_links self.now) c.cycles) }
        ensures listed { IfOk result (λ c. AreInListingOrder self.now.listing c.cycles) }
    {
        let table = self.table();
        let components = listed_cycles(alloc, table.graph(), table.listing())?;
        let cycles = NumberedCycles::of(alloc, self.package_count(), components)?;
        Ok(Cycles {
            graph: self,
            cycles,
        })
    }
}

impl<'g> Cycles<'g> {
    /// Whether links lead from the first package to the second and back, by at least one link each way.
    pub fn is_cyclic(&self, package_a: &PackageId, package_b: &PackageId) -> Result<bool, Error>
        ensures answer { AnswersCyclic self.now.graph package_a.now package_b.now result }
    {
        match self.graph.places_of_both(package_a, package_b) {
            Ok((a, b)) => Ok(self.cycles.is_cyclic(a, b)),
            Err(error) => Err(error),
        }
    }
}

impl<'g> Cycles<'g> {
    /// The cycles, each as the ids of its packages: as in `packages(Forward)` of the set of all
    /// packages, in which the packages of a cycle stand together.
    pub fn all_cycles(&self) -> AllCycles<'g, '_>
        ensures graph { cycles_graph_of result ≡ self.now.graph }
        ensures cycles { cycles_left result ≡ self.now.cycles }
        ensures cyclic { AreCycles Forward (numbered_links self.now.graph) self.now.cycles }
        ensures listed { AreInListingOrder self.now.graph.listing self.now.cycles }
    {
        AllCycles::of(self.graph, self.cycles.lists())
    }
}

impl fmt::Debug for Cycles<'_> {
    fn fmt<W: fmt::Write>(&self, f: &mut fmt::Formatter<W>) -> fmt::Result {
        f.debug_tuple("Cycles").field(&self.all_cycles()).finish()
    }
}
