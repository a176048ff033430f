//! The roots of a set of features, put in order.

ghost use Rattle.std.specs.Prelude.{◌≡◌, ◌⊎◌, ◌<◌, [], All, AllPairs, IfOk, IsPermutation, length, map};
ghost use Rattle.guppy_feature_demands.specs.Nodes.{nodes_of};
ghost use Rattle.guppy_feature_views.specs.RootOrder.{Ascend};
ghost use Rattle.guppy_feature_views.specs.RootPlaces.{place_at, place_view};

use guppy_feature_nodes::{FeatureGraphData, FeatureLabel};
use std::alloc::{AllocError, Global};

/// A feature with what it is sorted by: the place of its package in the record, and its label.
#[derive(Clone, Copy, PartialEq, Eq, PartialOrd, Ord)]
pub struct RootPlace<'g> {
    pub place: usize,
    pub label: FeatureLabel<'g>,
    pub node: usize,
}

/// Features by the places of their packages in the record, and those of one package by their labels.
pub fn in_root_order<'g>(
    alloc: Global,
    built: &'g FeatureGraphData<'g>,
    nodes: &[usize],
) -> Result<Vec<usize>, AllocError>
    requires within { All (λ v. v < length built.now.nodes) nodes.now }
    requires apart { AllPairs (λ u v. u < v) nodes.now }
    ensures each { IfOk result (λ ordered. IsPermutation nodes.now ordered.items) }
    ensures order { IfOk result (λ ordered. Ascend built.entry.now ordered.items) }
{
    let mut places = root_places(alloc, built, nodes)?;
    places.sort_unstable();
    let mut ordered = Vec::with_capacity(alloc, places.len())?;
    for place in &places {
        ordered.push(place.node)?;
    }
    Ok(ordered)
}

// What each of the features is sorted by.
fn root_places<'g>(
    alloc: Global,
    built: &'g FeatureGraphData<'g>,
    nodes: &[usize],
) -> Result<Vec<RootPlace<'g>>, AllocError>
    requires within { All (λ v. v < length built.now.nodes) nodes.now }
    ensures places { IfOk result (λ places. map place_view places.items
        ≡ map (place_at built.entry.now) nodes.now) }
    ensures features { IfOk result (λ places. (places.items ≡ [])
        ⊎ (built.entry.now.nodes ≡ nodes_of built.entry.now.rows.packages)) }
{
    let mut places: Vec<RootPlace<'g>> = Vec::with_capacity(alloc, nodes.len())?;
    for node in nodes {
        places.push(RootPlace {
            place: built.place_at(*node),
            label: built.feature_at(*node).label(),
            node: *node,
        })?;
    }
    Ok(places)
}
