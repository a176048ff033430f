//! Parts of a set that a callback chooses. A callback that is lent is seen again after the call; one that is handed
//! over is not, so the calls that take it say only that it was asked so.

ghost use Rattle.std.specs.Prelude.{◌≡◌, ℕ, Bool, List, Option, Some, true, false, Contains, IfOk, OnErr};
ghost use Rattle.guppy_package_graph.specs.Filters.{AreAsked};
ghost use Rattle.guppy_package_graph.specs.SetValues.{IsSetOf};

use crate::choosing::{choose, choose_accepted};
use crate::package_metadata::PackageMetadata;
use crate::package_set::PackageSet;
use guppy_package_parts::DependencyDirection;
use std::alloc::{AllocError, Global};

impl<'g> PackageSet<'g> {
    // A loop of its own beside that of `partition`, so that no set is made of what is refused.
    /// The packages of the set that the callback accepts. It is asked about each once, in the order in
    /// which the set is listed.
    pub fn filter<F: FnMut(PackageMetadata<'g>) -> bool>(
        &self,
        alloc: Global,
        direction: DependencyDirection,
        mut callback: F,
    ) -> Result<PackageSet<'g>, AllocError>
    where
        F: Drop,
        requires { F.IsAlwaysCallable callback }
        ensures kept { IfOk result
            (λ s. (asked : List (ℕ × Bool)) × (last : F)
            × AreAsked F.FnMut self.now direction callback asked last
            × IsSetOf self.now.graph (λ v. Contains asked (v, true)) s) }
    {
        self.filter_lent(alloc, direction, &mut callback)
    }

    /// The same by a callback that is lent. Where memory is refused, it was not asked.
    pub fn filter_lent<F: FnMut(PackageMetadata<'g>) -> bool>(
        &self,
        alloc: Global,
        direction: DependencyDirection,
        callback: &mut F,
    ) -> Result<PackageSet<'g>, AllocError>
        requires { F.IsAlwaysCallable callback.old }
        ensures kept { IfOk result
            (λ s. (asked : List (ℕ × Bool))
            × AreAsked F.FnMut self.now direction callback.old asked callback.new
            × IsSetOf self.now.graph (λ v. Contains asked (v, true)) s) }
        ensures err { OnErr result (callback.new ≡ callback.old) }
    {
        let kept = choose_accepted(alloc, self, direction, callback)?;
        Ok(PackageSet::of(self.graph(), kept))
    }

    /// The packages of the set that the callback accepts, and those that it refuses. It is asked about
    /// each once, in the order in which the set is listed.
    pub fn partition<F: FnMut(PackageMetadata<'g>) -> bool>(
        &self,
        alloc: Global,
        direction: DependencyDirection,
        mut callback: F,
    ) -> Result<(PackageSet<'g>, PackageSet<'g>), AllocError>
    where
        F: Drop,
        requires { F.IsAlwaysCallable callback }
        ensures parts { IfOk result
            (λ parts. (asked : List (ℕ × Bool)) × (last : F)
            × AreAsked F.FnMut self.now direction callback asked last
            × IsSetOf self.now.graph (λ v. Contains asked (v, true)) parts.0
            × IsSetOf self.now.graph (λ v. Contains asked (v, false)) parts.1) }
    {
        self.partition_lent(alloc, direction, &mut callback)
    }

    /// The same by a callback that is lent. Where memory is refused, it was not asked.
    pub fn partition_lent<F: FnMut(PackageMetadata<'g>) -> bool>(
        &self,
        alloc: Global,
        direction: DependencyDirection,
        callback: &mut F,
    ) -> Result<(PackageSet<'g>, PackageSet<'g>), AllocError>
        requires { F.IsAlwaysCallable callback.old }
        ensures parts { IfOk result
            (λ parts. (asked : List (ℕ × Bool))
            × AreAsked F.FnMut self.now direction callback.old asked callback.new
            × IsSetOf self.now.graph (λ v. Contains asked (v, true)) parts.0
            × IsSetOf self.now.graph (λ v. Contains asked (v, false)) parts.1) }
        ensures err { OnErr result (callback.new ≡ callback.old) }
    {
        let (accepted, refused) = choose(alloc, self, direction, callback, true, false)?;
        let graph = self.graph();
        Ok((
            PackageSet::of(graph, accepted),
            PackageSet::of(graph, refused),
        ))
    }

    /// The packages for which the callback answers `Some(true)`, and those for which it answers
    /// `Some(false)`. It is asked about each once, in the order in which the set is listed.
    pub fn filter_partition<F: FnMut(PackageMetadata<'g>) -> Option<bool>>(
        &self,
        alloc: Global,
        direction: DependencyDirection,
        mut callback: F,
    ) -> Result<(PackageSet<'g>, PackageSet<'g>), AllocError>
    where
        F: Drop,
        requires { F.IsAlwaysCallable callback }
        ensures parts { IfOk result
            (λ parts. (asked : List (ℕ × Option Bool)) × (last : F)
            × AreAsked F.FnMut self.now direction callback asked last
            × IsSetOf self.now.graph (λ v. Contains asked (v, Some true)) parts.0
            × IsSetOf self.now.graph (λ v. Contains asked (v, Some false)) parts.1) }
    {
        self.filter_partition_lent(alloc, direction, &mut callback)
    }

    /// The same by a callback that is lent. Where memory is refused, it was not asked.
    pub fn filter_partition_lent<F: FnMut(PackageMetadata<'g>) -> Option<bool>>(
        &self,
        alloc: Global,
        direction: DependencyDirection,
        callback: &mut F,
    ) -> Result<(PackageSet<'g>, PackageSet<'g>), AllocError>
        requires { F.IsAlwaysCallable callback.old }
        ensures parts { IfOk result
            (λ parts. (asked : List (ℕ × Option Bool))
            × AreAsked F.FnMut self.now direction callback.old asked callback.new
            × IsSetOf self.now.graph (λ v. Contains asked (v, Some true)) parts.0
            × IsSetOf self.now.graph (λ v. Contains asked (v, Some false)) parts.1) }
        ensures err { OnErr result (callback.new ≡ callback.old) }
    {
        let (yes, no) = (Some(true), Some(false));
        let (first, second) = choose(alloc, self, direction, callback, yes, no)?;
        let graph = self.graph();
        Ok((PackageSet::of(graph, first), PackageSet::of(graph, second)))
    }
}
