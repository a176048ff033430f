//! What a query resolves to.

ghost use Rattle.std.specs.Prelude.{◌≡◌, ◌↔◌, ℕ, ◌+◌, ◌<◌, ◌≤◌, IfOk, IsTrue, OnErr, length};
ghost use Rattle.numbered_graph.specs.Paths.{any_link, IsReached};
ghost use Rattle.numbered_graph.specs.Sets.{has};
ghost use Rattle.numbered_graph.specs.Walks.{Shown};
ghost use Rattle.guppy_package_table.specs.Tables.{numbered_links};
ghost use Rattle.guppy_package_graph.specs.Closures.{AsksClosure};
ghost use Rattle.guppy_package_graph.specs.Directions.{direction_of};
ghost use Rattle.guppy_package_graph.specs.Resolves.{IsReachOf, IsResolved, shown_to};
ghost use Rattle.guppy_package_graph.specs.Visits.{Chain, SameSteps};

use crate::dependency_direction::direction_of;
use crate::package_link::PackageLink;
use crate::package_link_context::PackageLinkContext;
use crate::package_query::PackageQuery;
use crate::package_set::PackageSet;
use crate::resolving::{resolve_by_closure, resolve_by_visitor};
use crate::visitor::PackageLinkVisitor;
use numbered_graph::{Looks, reach_counted};
use std::alloc::{AllocError, Global};
use std::marker::Brand;
use std::sync::ledger::{Blank, Ledger};

impl<'g> PackageQuery<'g> {
    /// All packages that links lead to from the initials, in the query's direction.
    pub fn resolve(self, alloc: Global) -> Result<PackageSet<'g>, AllocError>
        ensures reached { IfOk result (IsReachOf self.entry) }
    {
        resolve_with_blank::<Brand>(alloc, self, Blank::new(1))
    }

    /// The same, with a count of the looks that it takes: a package that is taken from the work list,
    /// or a link that is looked at.
    pub fn resolve_counted<L: Ledger>(
        self,
        alloc: Global,
        looks: &mut Looks<L>,
    ) -> Result<PackageSet<'g>, AllocError>
        ensures reached { IfOk result (IsReachOf self.entry) }
        ensures looks { looks.new ≤ looks.old +
            (length self.entry.graph.packages + length self.entry.graph.links) }
    {
        let graph = self.graph();
        let direction = direction_of(self.direction());
        let reached = reach_counted(
            alloc,
            graph.table().graph(),
            self.starts(),
            direction,
            looks,
        )?;
        Ok(PackageSet::of(graph, reached))
    }

    /// The packages that links lead to from the initials which the visitor accepts. Each link that
    /// leaves an included package is shown to it once, in no order that is promised.
    pub fn resolve_with(
        self,
        alloc: Global,
        visitor: &mut dyn PackageLinkVisitor,
    ) -> Result<PackageSet<'g>, AllocError>
        ensures graph { IfOk result (λ s. s.graph ≡ self.entry.graph) }
        ensures ok { IfOk result (λ s. (shown : Shown) × IsResolved self.entry shown s.included
            × Chain (steps visitor.old) (state visitor.old) (shown_to self.entry shown)
            (state visitor.new)) }
        ensures same { SameSteps (steps visitor.old) (steps visitor.new) }
        ensures err { OnErr result (visitor.new ≡ visitor.old) }
    {
        match resolve_by_visitor::<Brand>(alloc, &self, visitor, Blank::new(1)) {
            Ok(included) => Ok(PackageSet::of(self.graph(), included)),
            Err(refused) => Err(refused),
        }
    }

    /// The packages that links lead to from the initials which the closure accepts. Each link that
    /// leaves an included package is shown to it once, in no order that is promised.
    pub fn resolve_with_fn<F: FnMut(&PackageLinkContext<'_>, PackageLink<'g>) -> bool>(
        self,
        alloc: Global,
        mut visitor_fn: F,
    ) -> Result<PackageSet<'g>, AllocError>
    where
        F: Drop,
        requires { F.IsAlwaysCallable visitor_fn }
        ensures graph { IfOk result (λ s. s.graph ≡ self.entry.graph) }
        ensures ok { IfOk result (λ s. (shown : Shown) × (last : F)
            × IsResolved self.entry shown s.included
            × Chain (AsksClosure F.FnMut self.entry) visitor_fn shown last) }
    {
        self.resolve_with_fn_lent(alloc, &mut visitor_fn)
    }

    /// The same by a closure that is lent. Where memory is refused, it was not asked.
    pub fn resolve_with_fn_lent<F: FnMut(&PackageLinkContext<'_>, PackageLink<'g>) -> bool>(
        self,
        alloc: Global,
        visitor_fn: &mut F,
    ) -> Result<PackageSet<'g>, AllocError>
        requires { F.IsAlwaysCallable visitor_fn.old }
        ensures graph { IfOk result (λ s. s.graph ≡ self.entry.graph) }
        ensures ok { IfOk result (λ s. (shown : Shown) × IsResolved self.entry shown s.included
            × Chain (AsksClosure F.FnMut self.entry) visitor_fn.old shown visitor_fn.new) }
        ensures err { OnErr result (visitor_fn.new ≡ visitor_fn.old) }
    {
        match resolve_by_closure(alloc, &self, visitor_fn) {
            Ok(included) => Ok(PackageSet::of(self.graph(), included)),
            Err(refused) => Err(refused),
        }
    }
}

fn resolve_with_blank<'g, L: Ledger>(
    alloc: Global,
    query: PackageQuery<'g>,
    blank: Blank,
) -> Result<PackageSet<'g>, AllocError>
    requires name { blank.name ≡ L.name }
    requires parts { blank.parts ≡ L.parts }
    requires some { 0 < blank.parts }
    ensures { IfOk result (IsReachOf query.entry) }
{
    let mut looks = Looks::<L>::new(blank);
    query.resolve_counted(alloc, &mut looks)
}
