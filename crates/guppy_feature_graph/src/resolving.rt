//! Walks from the initials of a query, each with the one who says which links are followed.

ghost use Rattle.std.specs.Prelude.{◌≡◌, ◌+◌, ◌<◌, ◌≤◌, true, IfOk, OnErr, Some, length};
ghost use Rattle.guppy_package_graph.specs.Directions.{direction_of};
ghost use Rattle.guppy_package_graph.specs.Visits.{Chain, SameSteps};
ghost use Rattle.guppy_feature_nodes.specs.Offering.{offered};
ghost use Rattle.numbered_offers.specs.Dues.{asked_of, asks};
ghost use Rattle.numbered_offers.specs.Runs.{Run};
ghost use Rattle.numbered_offers.specs.declared.offer.Offer.{Offer};
ghost use Rattle.guppy_feature_graph.specs.Closures.{AsksClosure};
ghost use Rattle.guppy_feature_graph.specs.Links.{link_of};
ghost use Rattle.guppy_feature_graph.specs.OffersViews.{offers_view};
ghost use Rattle.guppy_feature_graph.specs.Resolves.{IsResolved, shown_to};
ghost use Rattle.guppy_feature_views.specs.Views.{link_view};

use crate::direction::direction_of;
use crate::feature_link_context::FeatureLinkContext;
use crate::feature_query::FeatureQuery;
use crate::feature_set::FeatureSet;
use crate::visitor::FeatureLinkVisitor;
use guppy_feature_nodes::LinkDeclarations;
use guppy_feature_views::ConditionalLink;
use guppy_package_graph::DependencyDirection;
use numbered_graph::{Looks, NodeSet};
use numbered_offers::{Due, Offer, OfferGraph, OfferKind, OfferWalk, take_uncounted};
use std::alloc::{AllocError, Global};
use std::sync::ledger::Ledger;

/// The edges of a graph as they are offered in a direction: kept by the graph, or made for one resolve.
#[derive(Drop)]
enum Offers<'a> {
    Kept(&'a OfferGraph),
    Made(OfferGraph),
}

impl Offers<'_> {
    fn graph(&self) -> &OfferGraph
        ensures { result.now ≡ offers_view self.now }
    {
        match self {
            Offers::Kept(graph) => graph,
            Offers::Made(graph) => graph,
        }
    }
}

fn offers_of<'a>(alloc: Global, query: &'a FeatureQuery<'_>) -> Result<Offers<'a>, AllocError>
    ensures { IfOk result (λ o. offers_view o
        ≡ offered (direction_of query.entry.now.direction) query.entry.now.graph) }
{
    let graph = query.graph().built();
    match query.direction() {
        DependencyDirection::Forward => Ok(Offers::Kept(graph.offers())),
        DependencyDirection::Reverse => Ok(Offers::Made(graph.reverse_offers(alloc)?)),
    }
}

/// Asks a visitor about each offer that becomes due. The query is lent: letting one go is dear where
/// there are two ways out.
pub(crate) fn resolve_by_visitor<'g, L: Ledger>(
    alloc: Global,
    query: &FeatureQuery<'g>,
    visitor: &mut dyn FeatureLinkVisitor,
    looks: &mut Looks<L>,
) -> Result<FeatureSet<'g>, AllocError>
    ensures graph { IfOk result (λ s. s.graph ≡ query.now.graph) }
    ensures ok { IfOk result (λ s. (run : Run) × IsResolved query.now run s.included
        × Chain (steps visitor.old) (state visitor.old) (shown_to query.now run)
        (state visitor.new)) }
    ensures same { SameSteps (steps visitor.old) (steps visitor.new) }
    ensures err { OnErr result (visitor.new ≡ visitor.old) }
    ensures looks { looks.new ≤ looks.old + length query.now.graph.nodes }
{
    match offers_of(alloc, query) {
        Ok(offers) => match show_to_visitor(alloc, query, offers.graph(), visitor, looks) {
            Ok(included) => FeatureSet::found(query.graph(), included),
            Err(refused) => Err(refused),
        },
        Err(refused) => Err(refused),
    }
}

fn show_to_visitor<L: Ledger>(
    alloc: Global,
    query: &FeatureQuery<'_>,
    offers: &OfferGraph,
    visitor: &mut dyn FeatureLinkVisitor,
    looks: &mut Looks<L>,
) -> Result<NodeSet, AllocError>
    requires offers { offers.now ≡ offered (direction_of query.now.direction) query.now.graph }
    ensures ok { IfOk result (λ set. (run : Run) × IsResolved query.now run set
        × Chain (steps visitor.old) (state visitor.old) (shown_to query.now run)
        (state visitor.new)) }
    ensures same { SameSteps (steps visitor.old) (steps visitor.new) }
    ensures err { OnErr result (visitor.new ≡ visitor.old) }
    ensures looks { looks.new ≤ looks.old + length query.now.graph.nodes }
{
    let direction = direction_of(query.direction());
    let mut walk = OfferWalk::new(alloc, offers, query.starts(), direction)?;
    while let Some(due) = walk.take(looks) {
        let (first, second) = ask_due(visitor, query, due);
        walk.answer(due, first, second);
    }
    Ok(walk.into_included())
}

// Asks about what is offered at once; of two halves about the required one first.
fn ask_due(visitor: &mut dyn FeatureLinkVisitor, query: &FeatureQuery<'_>, due: Due) -> (bool, bool)
    requires { (o : Offer) → asks (Some due) o ≡ true → o.edge < length query.now.graph.edges }
    ensures step { Chain (steps visitor.old) (state visitor.old)
        (shown_to query.now (asked_of (Some due) result.0 result.1)) (state visitor.new) }
    ensures same { SameSteps (steps visitor.old) (steps visitor.new) }
{
    match due {
        Due::One(offer) => (ask(visitor, query, offer), false),
        Due::Halves(edge) => {
            let kind = OfferKind::Required;
            let required = ask(visitor, query, Offer { edge, kind });
            let kind = OfferKind::Optional;
            let optional = ask(visitor, query, Offer { edge, kind });
            (required, optional)
        }
    }
}

fn ask(visitor: &mut dyn FeatureLinkVisitor, query: &FeatureQuery<'_>, offer: Offer) -> bool
    requires { offer.edge < length query.now.graph.edges }
    ensures step { steps visitor.old (state visitor.old) (query.now, link_of query.now.graph offer)
        result (state visitor.new) }
    ensures same { SameSteps (steps visitor.old) (steps visitor.new) }
{
    let cx = FeatureLinkContext::of(query);
    let link = link_of(query, offer);
    visitor.visit_link(&cx, link)
}

// The link that is shown where an offer is made.
fn link_of<'g>(query: &FeatureQuery<'g>, offer: Offer) -> ConditionalLink<'g>
    requires { offer.edge < length query.now.graph.edges }
    ensures { link_view result ≡ link_of query.now.graph offer }
{
    let declarations = match offer.kind {
        OfferKind::Unsplit => LinkDeclarations::Unsplit,
        OfferKind::Required => LinkDeclarations::Required,
        OfferKind::Optional => LinkDeclarations::Optional,
    };
    ConditionalLink::at(query.graph().built(), offer.edge, declarations)
}

/// Asks a closure about each offer that becomes due.
pub(crate) fn resolve_by_closure<
    'g,
    F: FnMut(&FeatureLinkContext<'_>, ConditionalLink<'g>) -> bool,
>(alloc: Global, query: &FeatureQuery<'g>, accepts: &mut F) -> Result<FeatureSet<'g>, AllocError>
    requires { F.IsAlwaysCallable accepts.old }
    ensures graph { IfOk result (λ s. s.graph ≡ query.now.graph) }
    ensures ok { IfOk result (λ s. (run : Run) × IsResolved query.now run s.included
        × Chain (AsksClosure F.FnMut query.now) accepts.old run accepts.new) }
    ensures err { OnErr result (accepts.new ≡ accepts.old) }
{
    match offers_of(alloc, query) {
        Ok(offers) => match show_to_closure(alloc, query, offers.graph(), accepts) {
            Ok(included) => FeatureSet::found(query.graph(), included),
            Err(refused) => Err(refused),
        },
        Err(refused) => Err(refused),
    }
}

fn show_to_closure<'g, F: FnMut(&FeatureLinkContext<'_>, ConditionalLink<'g>) -> bool>(
    alloc: Global,
    query: &FeatureQuery<'g>,
    offers: &OfferGraph,
    accepts: &mut F,
) -> Result<NodeSet, AllocError>
    requires callable { F.IsAlwaysCallable accepts.old }
    requires offers { offers.now ≡ offered (direction_of query.now.direction) query.now.graph }
    ensures ok { IfOk result (λ set. (run : Run) × IsResolved query.now run set
        × Chain (AsksClosure F.FnMut query.now) accepts.old run accepts.new) }
    ensures err { OnErr result (accepts.new ≡ accepts.old) }
{
    let direction = direction_of(query.direction());
    let mut walk = OfferWalk::new(alloc, offers, query.starts(), direction)?;
    while let Some(due) = take_uncounted(&mut walk) {
        let (first, second) = ask_closure_due(accepts, query, due);
        walk.answer(due, first, second);
    }
    Ok(walk.into_included())
}

/// The same, with a count of the looks.
pub(crate) fn resolve_by_closure_counted<
    'g,
    L: Ledger,
    F: FnMut(&FeatureLinkContext<'_>, ConditionalLink<'g>) -> bool,
>(
    alloc: Global,
    query: &FeatureQuery<'g>,
    accepts: &mut F,
    looks: &mut Looks<L>,
) -> Result<FeatureSet<'g>, AllocError>
    requires callable { F.IsAlwaysCallable accepts.old }
    ensures graph { IfOk result (λ s. s.graph ≡ query.now.graph) }
    ensures ok { IfOk result (λ s. (run : Run) × IsResolved query.now run s.included
        × Chain (AsksClosure F.FnMut query.now) accepts.old run accepts.new) }
    ensures err { OnErr result (accepts.new ≡ accepts.old) }
    ensures looks { looks.new ≤ looks.old + length query.now.graph.nodes }
{
    match offers_of(alloc, query) {
        Ok(offers) => match show_to_closure_counted(alloc, query, offers.graph(), accepts, looks) {
            Ok(included) => FeatureSet::found(query.graph(), included),
            Err(refused) => Err(refused),
        },
        Err(refused) => Err(refused),
    }
}

fn show_to_closure_counted<
    'g,
    L: Ledger,
    F: FnMut(&FeatureLinkContext<'_>, ConditionalLink<'g>) -> bool,
>(
    alloc: Global,
    query: &FeatureQuery<'g>,
    offers: &OfferGraph,
    accepts: &mut F,
    looks: &mut Looks<L>,
) -> Result<NodeSet, AllocError>
    requires callable { F.IsAlwaysCallable accepts.old }
    requires offers { offers.now ≡ offered (direction_of query.now.direction) query.now.graph }
    ensures ok { IfOk result (λ set. (run : Run) × IsResolved query.now run set
        × Chain (AsksClosure F.FnMut query.now) accepts.old run accepts.new) }
    ensures err { OnErr result (accepts.new ≡ accepts.old) }
    ensures looks { looks.new ≤ looks.old + length query.now.graph.nodes }
{
    let direction = direction_of(query.direction());
    let mut walk = OfferWalk::new(alloc, offers, query.starts(), direction)?;
    while let Some(due) = walk.take(looks) {
        let (first, second) = ask_closure_due(accepts, query, due);
        walk.answer(due, first, second);
    }
    Ok(walk.into_included())
}

fn ask_closure_due<'g, F: FnMut(&FeatureLinkContext<'_>, ConditionalLink<'g>) -> bool>(
    accepts: &mut F,
    query: &FeatureQuery<'g>,
    due: Due,
) -> (bool, bool)
    requires callable { F.IsAlwaysCallable accepts.old }
    requires within { (o : Offer) → asks (Some due) o ≡ true
        → o.edge < length query.now.graph.edges }
    ensures asks { Chain (AsksClosure F.FnMut query.now) accepts.old
        (asked_of (Some due) result.0 result.1) accepts.new }
    ensures callable { F.IsAlwaysCallable accepts.new }
{
    match due {
        Due::One(offer) => (ask_closure(accepts, query, offer), false),
        Due::Halves(edge) => {
            let kind = OfferKind::Required;
            let required = ask_closure(accepts, query, Offer { edge, kind });
            let kind = OfferKind::Optional;
            let optional = ask_closure(accepts, query, Offer { edge, kind });
            (required, optional)
        }
    }
}

fn ask_closure<'g, F: FnMut(&FeatureLinkContext<'_>, ConditionalLink<'g>) -> bool>(
    accepts: &mut F,
    query: &FeatureQuery<'g>,
    offer: Offer,
) -> bool
    requires callable { F.IsAlwaysCallable accepts.old }
    requires within { offer.edge < length query.now.graph.edges }
    ensures asks { AsksClosure F.FnMut query.now accepts.old offer result accepts.new }
    ensures callable { F.IsAlwaysCallable accepts.new }
{
    let cx = FeatureLinkContext::of(&*query);
    let link = link_of(query, offer);
    accepts(&cx, link)
}
