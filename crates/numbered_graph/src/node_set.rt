//! Sets of numbered nodes.

ghost use Rattle.std.specs.Prelude.{◌≡◌, ◌⊎◌, ℕ, ◌<◌, ◌&&◌, ◌||◌, not, true, false, ◌↔◌, length, filter, replicate, All, AllPairs, Contains, IsTrue, IfOk, count_by};
ghost use Rattle.numbered_graph.specs.Listings.{numbers_below};
ghost use Rattle.numbered_graph.specs.Sets.{has, differs, joined};

use crate::flags::{flags_of, is_set};
use std::alloc::{AllocError, Global};
use std::marker::Model;

/// A set of nodes, kept as a flag for each node of a graph.
#[derive(Drop)]
pub struct NodeSet {
    flags: Vec<bool>,
}

impl Model for NodeSet {
    ghost use Rattle.std.specs.Prelude.{List, Bool};

    ghost Value = { List Bool };

    ghost view = { λ s. s.flags.items };
}

#[derive(Clone, Copy)]
enum Operation {
    Union,
    Intersection,
    Difference,
    SymmetricDifference,
}

impl NodeSet {
    /// None of so many nodes.
    pub fn none(alloc: Global, nodes: usize) -> Result<NodeSet, AllocError>
        ensures members { IfOk result (λ s. s ≡ replicate nodes false) }
    {
        let flags = flags_of(alloc, false, nodes)?;
        Ok(NodeSet { flags })
    }

    /// All of so many nodes.
    pub fn all(alloc: Global, nodes: usize) -> Result<NodeSet, AllocError>
        ensures members { IfOk result (λ s. s ≡ replicate nodes true) }
    {
        let flags = flags_of(alloc, true, nodes)?;
        Ok(NodeSet { flags })
    }

    /// Those nodes of so many that are listed.
    pub fn of(alloc: Global, nodes: usize, members: &[usize]) -> Result<NodeSet, AllocError>
        requires { All (λ v. v < nodes) members.now }
        ensures sized { IfOk result (λ s. length s ≡ nodes) }
        ensures members { IfOk result (λ s. (v : ℕ) → IsTrue (has s v) ↔ Contains members.now v) }
    {
        let mut flags = flags_of(alloc, false, nodes)?;
        for member in members {
            flags[*member] = true;
        }
        Ok(NodeSet { flags })
    }

    /// Puts a node in, which wants no memory.
    pub fn insert(&mut self, node: usize)
        requires { node < length self.old }
        ensures sized { length self.new ≡ length self.old }
        ensures members { (v : ℕ) → IsTrue (has self.new v)
            ↔ (IsTrue (has self.old v) ⊎ (v ≡ node)) }
    {
        self.flags[node] = true;
    }

    /// Puts a node in where it is wanted.
    pub fn insert_if(&mut self, node: usize, wanted: bool)
        requires { node < length self.old }
        ensures sized { length self.new ≡ length self.old }
        ensures members { (v : ℕ) → IsTrue (has self.new v)
            ↔ (IsTrue (has self.old v) ⊎ (IsTrue wanted × (v ≡ node))) }
    {
        if wanted {
            self.insert(node);
        }
    }

    pub(crate) fn from_flags(flags: Vec<bool>) -> NodeSet
        ensures { result ≡ flags.items }
    {
        NodeSet { flags }
    }

    /// Whether the node is in the set. A number past the last node is in no set.
    pub fn contains(&self, node: usize) -> bool
        ensures member { result ≡ has self.now node }
    {
        is_set(&self.flags, node)
    }

    /// The number of nodes that could be in the set.
    pub fn node_count(&self) -> usize
        ensures count { result ≡ length self.now }
    {
        self.flags.len()
    }

    /// How many nodes are in the set.
    pub fn len(&self) -> usize
        ensures count { result ≡ count_by (λ b. b) self.now }
    {
        self.flags.iter().filter(|b| **b).count()
    }

    /// The nodes in the set, ascending.
    pub fn members(&self, alloc: Global) -> Result<Vec<usize>, AllocError>
        ensures members { IfOk result (λ v. v.items
            ≡ filter (has self.now) (numbers_below (length self.now))) }
        ensures ascending { IfOk result (λ v. AllPairs (λ x y. x < y) v.items) }
        ensures each { IfOk result (λ v. (x : ℕ) → Contains v.items x ↔ IsTrue (has self.now x)) }
        ensures within { IfOk result (λ v. All (λ x. x < length self.now) v.items) }
    {
        let flags: &[bool] = &self.flags;
        let mut nodes = Vec::new(alloc);
        for node in 0..flags.len() {
            if flags[node] {
                nodes.push(node)?;
            }
        }
        Ok(nodes)
    }

    /// The nodes that are in one of the two sets.
    pub fn union(&self, alloc: Global, other: &NodeSet) -> Result<NodeSet, AllocError>
        requires { length other.now ≡ length self.now }
        ensures sized { IfOk result (λ s. length s ≡ length self.now) }
        ensures members { IfOk result (λ s. (v : ℕ)
            → has s v ≡ (has self.now v || has other.now v)) }
    {
        let flags = join_flags(alloc, Operation::Union, &self.flags, &other.flags)?;
        Ok(NodeSet { flags })
    }

    /// The nodes that are in both sets.
    pub fn intersection(&self, alloc: Global, other: &NodeSet) -> Result<NodeSet, AllocError>
        requires { length other.now ≡ length self.now }
        ensures sized { IfOk result (λ s. length s ≡ length self.now) }
        ensures members { IfOk result (λ s. (v : ℕ)
            → has s v ≡ (has self.now v && has other.now v)) }
    {
        let flags = join_flags(alloc, Operation::Intersection, &self.flags, &other.flags)?;
        Ok(NodeSet { flags })
    }

    /// The nodes that are in this set and not in the other.
    pub fn difference(&self, alloc: Global, other: &NodeSet) -> Result<NodeSet, AllocError>
        requires { length other.now ≡ length self.now }
        ensures sized { IfOk result (λ s. length s ≡ length self.now) }
        ensures members { IfOk result (λ s. (v : ℕ)
            → has s v ≡ (has self.now v && not (has other.now v))) }
    {
        let flags = join_flags(alloc, Operation::Difference, &self.flags, &other.flags)?;
        Ok(NodeSet { flags })
    }

    /// The nodes that are in exactly one of the two sets.
    pub fn symmetric_difference(
        &self,
        alloc: Global,
        other: &NodeSet,
    ) -> Result<NodeSet, AllocError>
        requires { length other.now ≡ length self.now }
        ensures sized { IfOk result (λ s. length s ≡ length self.now) }
        ensures members { IfOk result (λ s. (v : ℕ)
            → has s v ≡ differs (has self.now v) (has other.now v)) }
    {
        let flags = join_flags(
            alloc,
            Operation::SymmetricDifference,
            &self.flags,
            &other.flags,
        )?;
        Ok(NodeSet { flags })
    }
}

fn join_flags(
    alloc: Global,
    operation: Operation,
    a: &[bool],
    b: &[bool],
) -> Result<Vec<bool>, AllocError>
    requires { length b.now ≡ length a.now }
    ensures sized { IfOk result (λ v. length v.items ≡ length a.now) }
    ensures each { IfOk result (λ v. (k : ℕ)
        → has v.items k ≡ joined operation (has a.now k) (has b.now k)) }
{
    let mut flags = Vec::new(alloc);
    for k in 0..a.len() {
        flags.push(match operation {
            Operation::Union => a[k] || b[k],
            Operation::Intersection => a[k] && b[k],
            Operation::Difference => a[k] && !b[k],
            Operation::SymmetricDifference => a[k] != b[k],
        })?;
    }
    Ok(flags)
}
