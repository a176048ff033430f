//! Edges between numbered nodes: some are crossed always, some where an offer is accepted.

ghost use Rattle.std.specs.Prelude.{◌≡◌, ◌↔◌, IsTrue};
ghost use Rattle.numbered_offers.specs.Edges.{AreEdgesWithin, dep_of, is_free, has_offer};
ghost use Rattle.numbered_offers.specs.declared.offer.OfferKind.TheVariants.{Optional};

/// An edge from one node to another, or to the same.
#[derive(Clone, Copy, Debug, PartialEq, Eq)]
pub struct Edge {
    /// Where it begins.
    pub from: usize,
    /// Where it ends.
    pub to: usize,
    /// When it is crossed.
    pub sort: EdgeSort,
}

/// When an edge is crossed.
#[derive(Clone, Copy, Debug, PartialEq, Eq)]
pub enum EdgeSort {
    /// Always.
    Unconditional,
    /// Where its one offer is accepted.
    Conditional,
    /// Where one of its halves is accepted. A half that is not there is not offered; forward, the
    /// optional one is offered only where the node `dep` is reached too.
    Weak {
        dep: usize,
        required: bool,
        optional: bool,
    },
}

impl Edge {
    // The node for which its optional half waits.
    pub(crate) fn dep(self) -> usize
        ensures { result ≡ dep_of self.sort }
    {
        match self.sort {
            EdgeSort::Unconditional | EdgeSort::Conditional => 0,
            EdgeSort::Weak { dep, .. } => dep,
        }
    }

    pub(crate) fn is_free(self) -> bool
        ensures { result ≡ is_free self.sort }
    {
        match self.sort {
            EdgeSort::Unconditional => true,
            EdgeSort::Conditional | EdgeSort::Weak { .. } => false,
        }
    }

    pub(crate) fn has_optional_half(self) -> bool
        ensures { result ≡ has_offer self.sort Optional }
    {
        match self.sort {
            EdgeSort::Unconditional | EdgeSort::Conditional => false,
            EdgeSort::Weak { optional, .. } => optional,
        }
    }
}

/// Whether the ends of each edge, and the node for which it waits, are among so many nodes: what
/// `OfferGraph::new` asks for.
pub fn are_edges_within(nodes: usize, edges: &[Edge]) -> bool
    ensures answer { IsTrue result ↔ AreEdgesWithin nodes edges.now }
{
    edges.iter().all(|edge| edge.from < nodes && edge.to < nodes && edge.dep() < nodes)
}
