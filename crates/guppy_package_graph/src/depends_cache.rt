//! Questions on what depends on what, which remember what the last asked package reaches.

ghost use Rattle.std.specs.Prelude.{◌≡◌, ◌↔◌, ℕ, ◌<◌, IfOk, IsTrue, OnOk, Some, length};
ghost use Rattle.numbered_graph.specs.Paths.{Reaches, any_link};
ghost use Rattle.numbered_graph.specs.Sets.{has};
ghost use Rattle.guppy_package_table.specs.Tables.{numbered_links};
ghost use Rattle.guppy_package_graph.specs.Depending.{AnswersDepending};

use crate::package_graph::PackageGraph;
use crate::package_set::same_places;
use guppy_package_parts::{Error, PackageId};
use numbered_graph::{Direction, NodeSet, reach};
use std::alloc::{AllocError, Global};
use std::fmt;
use std::marker::Model;

/// Answers as `depends_on` of its graph does. Where the first package is that of the last question,
/// the answer is known at once.
#[derive(Drop)]
pub struct DependsCache<'g> {
    graph: &'g PackageGraph,
    from: Option<usize>,
    reached: NodeSet,
}

impl<'g> Model for DependsCache<'g> {
    ghost use Rattle.std.specs.Prelude.{◌≡◌, ◌↔◌, ℕ, IsTrue, Some};
    ghost use Rattle.numbered_graph.specs.Paths.{Reaches, any_link};
    ghost use Rattle.numbered_graph.specs.Sets.{has};
    ghost use Rattle.guppy_package_table.specs.Tables.{TableValue, numbered_links};

    ghost Value = { TableValue };

    ghost view = { λ c. c.graph.now };

    ghost invariant = { λ c. (from : ℕ) → c.from ≡ Some from → (v : ℕ) → IsTrue (has c.reached v) ↔ Reaches (numbered_links c.graph.now) any_link from v };
}

impl<'g> DependsCache<'g> {
    /// A cache that knows nothing yet.
    pub fn new(alloc: Global, graph: &'g PackageGraph) -> Result<DependsCache<'g>, AllocError>
        ensures graph { IfOk result (λ c. c ≡ graph.entry.now) }
    {
        let reached = NodeSet::none(alloc, graph.package_count())?;
        Ok(DependsCache {
            graph,
            from: None,
            reached,
        })
    }

    /// A cache of the same graph, in memory of its own, so that it answers alike.
    pub fn copy(&self, alloc: Global) -> Result<DependsCache<'g>, AllocError>
        ensures same { IfOk result (λ c. c ≡ self.now) }
    {
        let reached = same_places(alloc, &self.reached)?;
        Ok(DependsCache {
            graph: self.graph,
            from: self.from,
            reached,
        })
    }

    /// Whether a path of links, maybe an empty one, leads from the first package to the second.
    pub fn depends_on(
        &mut self,
        alloc: Global,
        package_a: &PackageId,
        package_b: &PackageId,
    ) -> Result<bool, Error>
        ensures answer { AnswersDepending self.old package_a.now package_b.now result }
        ensures graph { self.new ≡ self.old }
    {
        match self.graph.places_of_both(package_a, package_b) {
            Ok((from, to)) => {
                if self.from != Some(from) {
                    let reached = places_from(alloc, self.graph, from)?;
                    self.reached = reached;
                    self.from = Some(from);
                }
                Ok(self.reached.contains(to))
            }
            Err(error) => Err(error),
        }
    }
}

/// The places that links lead to from a place.
pub(crate) fn places_from(
    alloc: Global,
    graph: &PackageGraph,
    from: usize,
) -> Result<NodeSet, AllocError>
    requires { from < length graph.now.packages }
    ensures { IfOk result (λ set. (v : ℕ) → IsTrue (has set v)
        ↔ Reaches (numbered_links graph.now) any_link from v) }
{
    reach(alloc, graph.table().graph(), &[from], Direction::Forward)
}

impl PackageGraph {
    /// A cache for questions on what depends on what.
    pub fn new_depends_cache(&self, alloc: Global) -> Result<DependsCache<'_>, AllocError>
        ensures graph { IfOk result (λ c. c ≡ self.now) }
    {
        DependsCache::new(alloc, self)
    }
}

impl fmt::Debug for DependsCache<'_> {
    fn fmt<W: fmt::Write>(&self, f: &mut fmt::Formatter<W>) -> fmt::Result {
        f.debug_struct("DependsCache")
            .field("graph", self.graph)
            .finish_non_exhaustive()
    }
}
