//! Parts of a set that a callback chooses. A callback that is lent is seen again after the call; one that is handed
//! over is not, so the calls that take it say only that it was asked so.

ghost use Rattle.std.specs.Prelude.{◌≡◌, ℕ, Bool, List, Option, Some, true, false, Contains, IfOk, Ok, OnErr, length};
ghost use Rattle.guppy_feature_graph.specs.Filters.{AreAsked};
ghost use Rattle.guppy_feature_graph.specs.Sets.{IsSetOf};
ghost use Rattle.guppy_feature_graph.specs.Views.{feature_graph_of};

use crate::choosing::{choose, choose_accepted};
use crate::feature_graph::FeatureGraph;
use crate::feature_set::FeatureSet;
use guppy_feature_views::FeatureMetadata;
use guppy_package_graph::DependencyDirection;
use numbered_graph::NodeSet;
use std::alloc::{AllocError, Global};

impl<'g> FeatureSet<'g> {
    /// The features of the set that the callback accepts. It is asked about each once, in the order in
    /// which the set is listed.
    pub fn filter<F: FnMut(FeatureMetadata<'g>) -> bool>(
        &self,
        alloc: Global,
        direction: DependencyDirection,
        mut callback: F,
    ) -> Result<FeatureSet<'g>, AllocError>
    where
        F: Drop,
        requires { F.IsAlwaysCallable callback }
        ensures kept { IfOk result
            (λ s. (asked : List (ℕ × Bool)) × (last : F)
            × AreAsked F.FnMut self.now direction callback asked last
            × IsSetOf self.now.graph (λ v. Contains asked (v, true)) s) }
    {
        self.filter_lent(alloc, direction, &mut callback)
    }

    /// The same by a callback that is lent. Where memory is refused, it was not asked.
    pub fn filter_lent<F: FnMut(FeatureMetadata<'g>) -> bool>(
        &self,
        alloc: Global,
        direction: DependencyDirection,
        callback: &mut F,
    ) -> Result<FeatureSet<'g>, AllocError>
        requires { F.IsAlwaysCallable callback.old }
        ensures kept { IfOk result
            (λ s. (asked : List (ℕ × Bool))
            × AreAsked F.FnMut self.now direction callback.old asked callback.new
            × IsSetOf self.now.graph (λ v. Contains asked (v, true)) s) }
        ensures err { OnErr result (callback.new ≡ callback.old) }
    {
        let kept = choose_accepted(alloc, self, direction, callback)?;
        FeatureSet::found(self.graph(), kept)
    }

    /// The features of the set that the callback accepts, and those that it refuses. It is asked about
    /// each once, in the order in which the set is listed.
    pub fn partition<F: FnMut(FeatureMetadata<'g>) -> bool>(
        &self,
        alloc: Global,
        direction: DependencyDirection,
        mut callback: F,
    ) -> Result<(FeatureSet<'g>, FeatureSet<'g>), AllocError>
    where
        F: Drop,
        requires { F.IsAlwaysCallable callback }
        ensures parts { IfOk result
            (λ parts. (asked : List (ℕ × Bool)) × (last : F)
            × AreAsked F.FnMut self.now direction callback asked last
            × IsSetOf self.now.graph (λ v. Contains asked (v, true)) parts.0
            × IsSetOf self.now.graph (λ v. Contains asked (v, false)) parts.1) }
    {
        self.partition_lent(alloc, direction, &mut callback)
    }

    /// The same by a callback that is lent. Where memory is refused, it was not asked.
    pub fn partition_lent<F: FnMut(FeatureMetadata<'g>) -> bool>(
        &self,
        alloc: Global,
        direction: DependencyDirection,
        callback: &mut F,
    ) -> Result<(FeatureSet<'g>, FeatureSet<'g>), AllocError>
        requires { F.IsAlwaysCallable callback.old }
        ensures parts { IfOk result
            (λ parts. (asked : List (ℕ × Bool))
            × AreAsked F.FnMut self.now direction callback.old asked callback.new
            × IsSetOf self.now.graph (λ v. Contains asked (v, true)) parts.0
            × IsSetOf self.now.graph (λ v. Contains asked (v, false)) parts.1) }
        ensures err { OnErr result (callback.new ≡ callback.old) }
    {
        let (accepted, refused) = choose(alloc, self, direction, callback, true, false)?;
        both_found(self.graph(), accepted, refused)
    }

    /// The features for which the callback answers `Some(true)`, and those for which it answers
    /// `Some(false)`. It is asked about each once, in the order in which the set is listed.
    pub fn filter_partition<F: FnMut(FeatureMetadata<'g>) -> Option<bool>>(
        &self,
        alloc: Global,
        direction: DependencyDirection,
        mut callback: F,
    ) -> Result<(FeatureSet<'g>, FeatureSet<'g>), AllocError>
    where
        F: Drop,
        requires { F.IsAlwaysCallable callback }
        ensures parts { IfOk result
            (λ parts. (asked : List (ℕ × Option Bool)) × (last : F)
            × AreAsked F.FnMut self.now direction callback asked last
            × IsSetOf self.now.graph (λ v. Contains asked (v, Some true)) parts.0
            × IsSetOf self.now.graph (λ v. Contains asked (v, Some false)) parts.1) }
    {
        self.filter_partition_lent(alloc, direction, &mut callback)
    }

    /// The same by a callback that is lent. Where memory is refused, it was not asked.
    pub fn filter_partition_lent<F: FnMut(FeatureMetadata<'g>) -> Option<bool>>(
        &self,
        alloc: Global,
        direction: DependencyDirection,
        callback: &mut F,
    ) -> Result<(FeatureSet<'g>, FeatureSet<'g>), AllocError>
        requires { F.IsAlwaysCallable callback.old }
        ensures parts { IfOk result
            (λ parts. (asked : List (ℕ × Option Bool))
            × AreAsked F.FnMut self.now direction callback.old asked callback.new
            × IsSetOf self.now.graph (λ v. Contains asked (v, Some true)) parts.0
            × IsSetOf self.now.graph (λ v. Contains asked (v, Some false)) parts.1) }
        ensures err { OnErr result (callback.new ≡ callback.old) }
    {
        let (yes, no) = (Some(true), Some(false));
        let (first, second) = choose(alloc, self, direction, callback, yes, no)?;
        both_found(self.graph(), first, second)
    }
}

// Two sets of these features, as an answer.
fn both_found<'g>(
    graph: &FeatureGraph<'g>,
    first: NodeSet,
    second: NodeSet,
) -> Result<(FeatureSet<'g>, FeatureSet<'g>), AllocError>
    requires first { length first ≡ length (feature_graph_of graph.now).nodes }
    requires second { length second ≡ length (feature_graph_of graph.now).nodes }
    ensures { result ≡ Ok (
      record { graph = feature_graph_of graph.now; included = first },
      record { graph = feature_graph_of graph.now; included = second },
    ) }
{
    Ok((
        FeatureSet::of(*graph, first),
        FeatureSet::of(*graph, second),
    ))
}
