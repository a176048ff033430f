//! Whether one package depends on another.

ghost use Rattle.std.specs.Prelude.{◌≡◌, ◌↔◌, ◌<◌, IfErr, IfOk, length};
ghost use Rattle.numbered_graph.specs.Paths.{Reaches, any_link};
ghost use Rattle.guppy_package_table.specs.Tables.{numbered_links};
ghost use Rattle.guppy_package_graph.specs.Depending.{AnswersDepending, AnswersDirectly, FindsPair};

use crate::package_graph::PackageGraph;
use guppy_package_parts::{Error, PackageId};
use numbered_graph::leads_to;
use std::alloc::Global;

impl PackageGraph {
    /// Whether a path of links, maybe an empty one, leads from the first package to the second. The walk
    /// ends once the second is reached.
    pub fn depends_on(
        &self,
        alloc: Global,
        package_a: &PackageId,
        package_b: &PackageId,
    ) -> Result<bool, Error>
        ensures answer { AnswersDepending self.now package_a.now package_b.now result }
    {
        match self.places_of_both(package_a, package_b) {
            Ok((from, to)) => {
                let leads = leads_to(alloc, self.table().graph(), from, to)?;
                Ok(leads)
            }
            Err(error) => Err(error),
        }
    }

    /// Whether a link leads from the first package to the second.
    pub fn directly_depends_on(
        &self,
        package_a: &PackageId,
        package_b: &PackageId,
    ) -> Result<bool, Error>
        ensures answer { AnswersDirectly self.now package_a.now package_b.now result }
    {
        match self.places_of_both(package_a, package_b) {
            Ok((from, to)) => Ok(self.table().link_between(from, to).is_some()),
            Err(error) => Err(error),
        }
    }

    pub(crate) fn places_of_both(
        &self,
        package_a: &PackageId,
        package_b: &PackageId,
    ) -> Result<(usize, usize), Error>
        ensures { FindsPair self.now package_a.now package_b.now result }
    {
        match (self.place_of(package_a), self.place_of(package_b)) {
            (Ok(a), Ok(b)) => Ok((a, b)),
            _ => Err(Error::UnknownPackageId),
        }
    }
}
