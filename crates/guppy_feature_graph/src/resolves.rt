//! What a query resolves to.

ghost use Rattle.std.specs.Prelude.{◌≡◌, ◌+◌, ◌<◌, ◌≤◌, IfOk, OnErr, length};
ghost use Rattle.guppy_package_graph.specs.Visits.{Chain, SameSteps};
ghost use Rattle.numbered_offers.specs.Runs.{Run};
ghost use Rattle.guppy_feature_graph.specs.Closures.{AsksClosure};
ghost use Rattle.guppy_feature_graph.specs.Resolves.{IsReachOf, IsResolved, shown_to};

use crate::direction::direction_of;
use crate::feature_link_context::FeatureLinkContext;
use crate::feature_query::FeatureQuery;
use crate::feature_set::FeatureSet;
use crate::resolving::{resolve_by_closure, resolve_by_closure_counted, resolve_by_visitor};
use crate::visitor::FeatureLinkVisitor;
use guppy_feature_views::ConditionalLink;
use numbered_graph::{Looks, reach};
use std::alloc::{AllocError, Global};
use std::marker::Brand;
use std::sync::ledger::{Blank, Ledger};

impl<'g> FeatureQuery<'g> {
    /// All features that edges lead to from the initials, in the query's direction, each edge crossed
    /// whoever would refuse it.
    pub fn resolve(self, alloc: Global) -> Result<FeatureSet<'g>, AllocError>
        ensures reached { IfOk result (IsReachOf self.entry) }
    {
        reached_from(alloc, &self)
    }

    /// The features that edges lead to from the initials, where those that stand on lines are crossed
    /// if the visitor accepts them, or a half of them. A link is shown once the feature from which it
    /// is followed is reached. A weak one is shown in halves, the required one first; forward, the
    /// optional one only once its optional dependency is reached too. Each is shown once, in no other
    /// order that is promised.
    pub fn resolve_with(
        self,
        alloc: Global,
        visitor: &mut dyn FeatureLinkVisitor,
    ) -> Result<FeatureSet<'g>, AllocError>
        ensures graph { IfOk result (λ s. s.graph ≡ self.entry.graph) }
        ensures ok { IfOk result (λ s. (run : Run) × IsResolved self.entry run s.included
            × Chain (steps visitor.old) (state visitor.old) (shown_to self.entry run)
            (state visitor.new)) }
        ensures same { SameSteps (steps visitor.old) (steps visitor.new) }
        ensures err { OnErr result (visitor.new ≡ visitor.old) }
    {
        resolve_with_blank::<Brand>(alloc, self, visitor, Blank::new(1))
    }

    /// The same, with a count of the looks that it takes: a look is a feature that is taken from the
    /// work list.
    pub fn resolve_with_counted<L: Ledger>(
        self,
        alloc: Global,
        visitor: &mut dyn FeatureLinkVisitor,
        looks: &mut Looks<L>,
    ) -> Result<FeatureSet<'g>, AllocError>
        ensures graph { IfOk result (λ s. s.graph ≡ self.entry.graph) }
        ensures ok { IfOk result (λ s. (run : Run) × IsResolved self.entry run s.included
            × Chain (steps visitor.old) (state visitor.old) (shown_to self.entry run)
            (state visitor.new)) }
        ensures same { SameSteps (steps visitor.old) (steps visitor.new) }
        ensures err { OnErr result (visitor.new ≡ visitor.old) }
        ensures looks { looks.new ≤ looks.old + length self.entry.graph.nodes }
    {
        resolve_by_visitor(alloc, &self, visitor, looks)
    }

    /// The same features as `resolve_with` gives, where a closure says which links are followed.
    pub fn resolve_with_fn<F: FnMut(&FeatureLinkContext<'_>, ConditionalLink<'g>) -> bool>(
        self,
        alloc: Global,
        mut visitor_fn: F,
    ) -> Result<FeatureSet<'g>, AllocError>
    where
        F: Drop,
        requires { F.IsAlwaysCallable visitor_fn }
        ensures graph { IfOk result (λ s. s.graph ≡ self.entry.graph) }
        ensures ok { IfOk result (λ s. (run : Run) × (last : F)
            × IsResolved self.entry run s.included
            × Chain (AsksClosure F.FnMut self.entry) visitor_fn run last) }
    {
        self.resolve_with_fn_lent(alloc, &mut visitor_fn)
    }

    /// The same by a closure that is lent. Where memory is refused, it was not asked.
    pub fn resolve_with_fn_lent<F: FnMut(&FeatureLinkContext<'_>, ConditionalLink<'g>) -> bool>(
        self,
        alloc: Global,
        visitor_fn: &mut F,
    ) -> Result<FeatureSet<'g>, AllocError>
        requires { F.IsAlwaysCallable visitor_fn.old }
        ensures graph { IfOk result (λ s. s.graph ≡ self.entry.graph) }
        ensures ok { IfOk result (λ s. (run : Run) × IsResolved self.entry run s.included
            × Chain (AsksClosure F.FnMut self.entry) visitor_fn.old run visitor_fn.new) }
        ensures err { OnErr result (visitor_fn.new ≡ visitor_fn.old) }
    {
        resolve_by_closure(alloc, &self, visitor_fn)
    }

    /// The same by a closure that is lent, with a count of the looks that it takes.
    pub fn resolve_with_fn_counted<
        L: Ledger,
        F: FnMut(&FeatureLinkContext<'_>, ConditionalLink<'g>) -> bool,
    >(
        self,
        alloc: Global,
        visitor_fn: &mut F,
        looks: &mut Looks<L>,
    ) -> Result<FeatureSet<'g>, AllocError>
        requires { F.IsAlwaysCallable visitor_fn.old }
        ensures graph { IfOk result (λ s. s.graph ≡ self.entry.graph) }
        ensures ok { IfOk result (λ s. (run : Run) × IsResolved self.entry run s.included
            × Chain (AsksClosure F.FnMut self.entry) visitor_fn.old run visitor_fn.new) }
        ensures err { OnErr result (visitor_fn.new ≡ visitor_fn.old) }
        ensures looks { looks.new ≤ looks.old + length self.entry.graph.nodes }
    {
        resolve_by_closure_counted(alloc, &self, visitor_fn, looks)
    }
}

/// All features that edges lead to from the initials of a query.
fn reached_from<'g>(alloc: Global, query: &FeatureQuery<'g>) -> Result<FeatureSet<'g>, AllocError>
    ensures { IfOk result (IsReachOf query.now) }
{
    let edges = query.graph().built().edge_graph();
    let direction = direction_of(query.direction());
    let reached = reach(alloc, edges, query.starts(), direction)?;
    FeatureSet::found(query.graph(), reached)
}

fn resolve_with_blank<'g, L: Ledger>(
    alloc: Global,
    query: FeatureQuery<'g>,
    visitor: &mut dyn FeatureLinkVisitor,
    blank: Blank,
) -> Result<FeatureSet<'g>, AllocError>
    requires name { blank.name ≡ L.name }
    requires parts { blank.parts ≡ L.parts }
    requires some { 0 < blank.parts }
    ensures graph { IfOk result (λ s. s.graph ≡ query.entry.graph) }
    ensures ok { IfOk result (λ s. (run : Run) × IsResolved query.entry run s.included
        × Chain (steps visitor.old) (state visitor.old) (shown_to query.entry run)
        (state visitor.new)) }
    ensures same { SameSteps (steps visitor.old) (steps visitor.new) }
    ensures err { OnErr result (visitor.new ≡ visitor.old) }
{
    let mut looks = Looks::<L>::new(blank);
    query.resolve_with_counted(alloc, visitor, &mut looks)
}
