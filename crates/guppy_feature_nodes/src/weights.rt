//! The demands that give way to others.

ghost use Rattle.std.specs.Prelude.{◌≡◌, [], IfOk, OnOk, map};
ghost use Rattle.std.specs.List.{list_any};
ghost use Rattle.guppy_feature_demands.specs.DemandViews.{form_view, numbered_view};
ghost use Rattle.guppy_feature_nodes.specs.Joining.{ends_of, gives_way_to, key_eq};
ghost use Rattle.guppy_feature_nodes.specs.KeyViews.{key_view};
ghost use Rattle.guppy_feature_nodes.specs.Weights.{FindsWeights};

use crate::edge_key::EdgeKey;
use guppy_feature_demands::{EdgeKind, NumberedDemand};
use indexmap::IndexSet;
use std::alloc::{AllocError, Global};

/// The weights of the demands to which others may give way.
pub(crate) fn weights_of<'g>(
    alloc: Global,
    demands: &[NumberedDemand<'g>],
) -> Result<IndexSet<EdgeKey<'g>>, AllocError>
    ensures { IfOk result (λ set. FindsWeights (map numbered_view demands.now)
        (map key_view set.keys)) }
{
    // Most have no such weight, as they stand on lines.
    let count = demands
        .iter()
        .filter(|demand| EdgeKey::weight(**demand).sort < 2)
        .count();
    let mut set: IndexSet<EdgeKey<'g>> = IndexSet::with_capacity(alloc, count)?;
    let filled = insert_weights(&mut set, demands);
    filled.and(Ok(set))
}

/// Puts the weights of the demands into an empty set.
fn insert_weights<'g>(
    set: &mut IndexSet<EdgeKey<'g>>,
    demands: &[NumberedDemand<'g>],
) -> Result<(), AllocError>
    requires { set.old.keys ≡ [] }
    ensures { OnOk result (FindsWeights (map numbered_view demands.now)
        (map key_view set.new.keys)) }
{
    for demand in demands {
        let weight = EdgeKey::weight(*demand);
        if weight.sort < 2 {
            set.insert(weight)?;
        }
    }
    Ok(())
}

/// Whether some demand has the weight.
fn has_weight<'g>(weights: &IndexSet<EdgeKey<'g>>, key: EdgeKey<'g>) -> bool
    ensures { result ≡ list_any (key_eq (key_view key.entry)) (map key_view weights.now.keys) }
{
    weights.contains(&key)
}

/// Whether a demand gives way to one of those with these weights.
pub(crate) fn gives_way<'g>(weights: &IndexSet<EdgeKey<'g>>, demand: NumberedDemand<'g>) -> bool
    ensures { result ≡ list_any (λ w.
        list_any (key_eq (ends_of (numbered_view demand.entry), w)) (map key_view weights.now.keys))
        (gives_way_to (form_view demand.entry.form)) }
{
    match demand.form {
        EdgeKind::FeatureToBase | EdgeKind::NamedFeature | EdgeKind::NamedFeatureDepColon => false,
        EdgeKind::StrongSlash(_) | EdgeKind::DependenciesSection => {
            has_weight(weights, EdgeKey::always(demand))
        }
        EdgeKind::WeakSlash(name) => {
            has_weight(weights, EdgeKey::always(demand))
                || has_weight(weights, EdgeKey::strong(demand, name))
        }
    }
}
