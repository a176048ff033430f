//! Keys by which edges of the same demand are found.

ghost use Rattle.std.specs.Prelude.{◌≡◌, []};
ghost use Rattle.guppy_feature_demands.specs.DemandViews.{numbered_view};
ghost use Rattle.guppy_feature_nodes.specs.Joining.{ends_of, join_key, weight_key};
ghost use Rattle.guppy_feature_nodes.specs.KeyViews.{key_view};

use guppy_feature_demands::{EdgeKind, NumberedDemand};
use std::hash::{Hash, Hasher};

/// An ordered pair of nodes, and what tells demands between them apart: a sort and a name.
#[derive(Clone, Copy)]
pub(crate) struct EdgeKey<'g> {
    pub from: usize,
    pub to: usize,
    pub sort: usize,
    pub name: &'g str,
}

impl PartialEq for EdgeKey<'_> {
    ghost use Rattle.std.specs.Cmp.{partial_equiv_from_equiv};
    ghost use Rattle.guppy_feature_nodes.specs.KeyViews.{edge_keys_equivalence, same_key};

    ghost eq = { same_key };

    ghost laws = { partial_equiv_from_equiv edge_keys_equivalence };

    fn eq(&self, other: &Self) -> bool {
        (self.from == other.from && self.to == other.to)
            && (self.sort == other.sort && self.name == other.name)
    }
}

impl Eq for EdgeKey<'_> {
    ghost use Rattle.guppy_feature_nodes.specs.KeyViews.{edge_keys_equivalence};

    ghost laws = { edge_keys_equivalence };
}

impl Hash for EdgeKey<'_> {
    ghost use Rattle.guppy_feature_nodes.specs.KeyViews.{key_view, key_writes, same_key_writes};

    ghost hash_input = { λ k. key_writes (key_view k) };

    ghost respects_eq = { same_key_writes };

    fn hash<H: Hasher>(&self, state: &mut H) {
        // The ends and the sort in one word, which may be that of other keys too.
        let from = self.from.wrapping_mul(4_294_967_296);
        let to = self.to.wrapping_mul(4);
        state.write_usize(from.wrapping_add(to).wrapping_add(self.sort));
        if !self.name.is_empty() {
            self.name.hash(state);
        }
    }
}

impl<'g> EdgeKey<'g> {
    fn of(demand: NumberedDemand<'g>, sort: usize, name: &'g str) -> EdgeKey<'g>
        ensures { key_view result ≡ (ends_of (numbered_view demand.entry), (sort, name.entry.now)) }
    {
        let (from, to) = (demand.from, demand.to);
        EdgeKey {
            from,
            to,
            sort,
            name,
        }
    }

    /// What joins a demand with others in one edge.
    pub(crate) fn joining(demand: NumberedDemand<'g>) -> EdgeKey<'g>
        ensures { key_view result ≡ join_key (numbered_view demand.entry) }
    {
        match demand.form {
            EdgeKind::FeatureToBase | EdgeKind::NamedFeature | EdgeKind::NamedFeatureDepColon => {
                EdgeKey::of(demand, 0, "")
            }
            EdgeKind::StrongSlash(_) | EdgeKind::DependenciesSection => EdgeKey::of(demand, 1, ""),
            EdgeKind::WeakSlash(name) => EdgeKey::of(demand, 2, name),
        }
    }

    /// What others may give way to.
    pub(crate) fn weight(demand: NumberedDemand<'g>) -> EdgeKey<'g>
        ensures { key_view result ≡ weight_key (numbered_view demand.entry) }
    {
        match demand.form {
            EdgeKind::FeatureToBase | EdgeKind::NamedFeature | EdgeKind::NamedFeatureDepColon => {
                EdgeKey::of(demand, 0, "")
            }
            EdgeKind::StrongSlash(name) => EdgeKey::of(demand, 1, name),
            EdgeKind::WeakSlash(name) => EdgeKey::of(demand, 2, name),
            EdgeKind::DependenciesSection => EdgeKey::of(demand, 3, ""),
        }
    }

    /// The weight of what leads always between the nodes of a demand.
    pub(crate) fn always(demand: NumberedDemand<'g>) -> EdgeKey<'g>
        ensures { key_view result ≡ (ends_of (numbered_view demand.entry), (0, [])) }
    {
        EdgeKey::of(demand, 0, "")
    }

    /// The weight of strong entries of a dependency between the nodes of a demand.
    pub(crate) fn strong(demand: NumberedDemand<'g>, name: &'g str) -> EdgeKey<'g>
        ensures { key_view result ≡ (ends_of (numbered_view demand.entry), (1, name.entry.now)) }
    {
        EdgeKey::of(demand, 1, name)
    }
}
