//! Walks from the initials of a query, each with the one who says which links are followed.

ghost use Rattle.std.specs.Prelude.{◌≡◌, ◌<◌, IfOk, OnErr, length};
ghost use Rattle.numbered_graph.specs.Walks.{Shown};
ghost use Rattle.guppy_package_graph.specs.ContextViews.{query_of};
ghost use Rattle.guppy_package_graph.specs.Resolves.{IsResolved, shown_to};
ghost use Rattle.guppy_package_graph.specs.Closures.{AsksClosure};
ghost use Rattle.guppy_package_graph.specs.Views.{number_of};
ghost use Rattle.guppy_package_graph.specs.Visits.{Chain, SameSteps};

use crate::dependency_direction::direction_of;
use crate::package_link::PackageLink;
use crate::package_link_context::PackageLinkContext;
use crate::package_query::PackageQuery;
use crate::visitor::PackageLinkVisitor;
use numbered_graph::{Looks, NodeSet, Walk, take_uncounted};
use std::alloc::{AllocError, Global};
use std::sync::ledger::{Blank, Ledger};

/// Asks a visitor about each link that leaves an included package.
pub(crate) fn resolve_by_visitor<L: Ledger>(
    alloc: Global,
    query: &PackageQuery<'_>,
    visitor: &mut dyn PackageLinkVisitor,
    blank: Blank,
) -> Result<NodeSet, AllocError>
    requires name { blank.name ≡ L.name }
    requires parts { blank.parts ≡ L.parts }
    requires some { 0 < blank.parts }
    ensures ok { IfOk result (λ set. (shown : Shown) × IsResolved query.now shown set
        × Chain (steps visitor.old) (state visitor.old) (shown_to query.now shown)
        (state visitor.new)) }
    ensures same { SameSteps (steps visitor.old) (steps visitor.new) }
    ensures err { OnErr result (visitor.new ≡ visitor.old) }
{
    let mut looks = Looks::<L>::new(blank);
    let graph = query.graph();
    let direction = direction_of(query.direction());
    let mut walk = Walk::new(alloc, graph.table().graph(), query.starts(), direction)?;
    while let Some(number) = walk.take(&mut looks) {
        let accepted = ask(visitor, query, number);
        walk.answer(number, accepted);
    }
    Ok(walk.into_included())
}

fn ask(visitor: &mut dyn PackageLinkVisitor, query: &PackageQuery<'_>, number: usize) -> bool
    requires { number < length query.now.graph.links }
    ensures step { steps visitor.old (state visitor.old) (query.now, number) result
        (state visitor.new) }
    ensures same { SameSteps (steps visitor.old) (steps visitor.new) }
{
    let cx = PackageLinkContext::of(query);
    let link = query.graph().link_at(number);
    visitor.visit_link(&cx, link)
}

/// Asks a closure about each link that leaves an included package.
pub(crate) fn resolve_by_closure<'g, F: FnMut(&PackageLinkContext<'_>, PackageLink<'g>) -> bool>(
    alloc: Global,
    query: &PackageQuery<'g>,
    accepts: &mut F,
) -> Result<NodeSet, AllocError>
    requires { F.IsAlwaysCallable accepts.old }
    ensures ok { IfOk result (λ set. (shown : Shown) × IsResolved query.now shown set
        × Chain (AsksClosure F.FnMut query.now) accepts.old shown accepts.new) }
    ensures err { OnErr result (accepts.new ≡ accepts.old) }
{
    let graph = query.graph();
    let direction = direction_of(query.direction());
    let mut walk = Walk::new(alloc, graph.table().graph(), query.starts(), direction)?;
    while let Some(number) = take_uncounted(&mut walk) {
        let accepted = ask_closure(accepts, query, number);
        walk.answer(number, accepted);
    }
    Ok(walk.into_included())
}

fn ask_closure<'g, F: FnMut(&PackageLinkContext<'_>, PackageLink<'g>) -> bool>(
    accepts: &mut F,
    query: &PackageQuery<'g>,
    number: usize,
) -> bool
    requires callable { F.IsAlwaysCallable accepts.old }
    requires within { number < length query.now.graph.links }
    ensures asks { AsksClosure F.FnMut query.now accepts.old number result accepts.new }
    ensures callable { F.IsAlwaysCallable accepts.new }
{
    let cx = PackageLinkContext::of(&*query);
    let link = query.graph().link_at(number);
    accepts(&cx, link)
}
