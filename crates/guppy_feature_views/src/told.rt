//! Features and edges of a graph, told of by their numbers.

ghost use Rattle.std.specs.Prelude.{◌≡◌, ◌<◌, All, IfOk, filter, length, map};
ghost use Rattle.guppy_feature_demands.specs.IdViews.{id_view};
ghost use Rattle.guppy_feature_nodes.specs.Graphs.{feature_at};
ghost use Rattle.guppy_feature_views.specs.Views.{link_view, seen};
ghost use Rattle.guppy_feature_views.specs.Told.{is_conditional, told_at, told_view, whole_link};

use crate::conditional_link::ConditionalLink;
use crate::feature_metadata::FeatureMetadata;
use guppy_feature_nodes::{FeatureEdge, FeatureGraphData, FeatureId, LinkDeclarations};
use std::alloc::{AllocError, Global};

/// The ids of the features with these numbers.
pub fn ids_at<'g>(
    alloc: Global,
    built: &'g FeatureGraphData<'g>,
    nodes: &[usize],
) -> Result<Vec<FeatureId<'g>>, AllocError>
    requires { All (λ v. v < length built.now.nodes) nodes.now }
    ensures { IfOk result (λ ids. map id_view ids.items
        ≡ map (feature_at built.entry.now) nodes.now) }
{
    let mut ids: Vec<FeatureId<'g>> = Vec::with_capacity(alloc, nodes.len())?;
    for node in nodes {
        ids.push(built.feature_at(*node))?;
    }
    Ok(ids)
}

/// What the graph says of the features with these numbers.
pub fn features_at<'g>(
    alloc: Global,
    built: &'g FeatureGraphData<'g>,
    nodes: &[usize],
) -> Result<Vec<FeatureMetadata<'g>>, AllocError>
    requires { All (λ v. v < length built.now.nodes) nodes.now }
    ensures { IfOk result (λ fs. map seen fs.items ≡ map (λ v. (built.entry.now, v)) nodes.now) }
{
    let mut features: Vec<FeatureMetadata<'g>> = Vec::with_capacity(alloc, nodes.len())?;
    for node in nodes {
        features.push(FeatureMetadata::at(built, *node))?;
    }
    Ok(features)
}

/// The edges with these numbers: the two features, and why the one leads to the other.
pub fn edges_told<'g>(
    alloc: Global,
    built: &'g FeatureGraphData<'g>,
    numbers: &[usize],
) -> Result<Vec<(FeatureId<'g>, FeatureId<'g>, &'g FeatureEdge)>, AllocError>
    requires { All (λ j. j < length built.now.edges) numbers.now }
    ensures { IfOk result (λ ls. map told_view ls.items
        ≡ map (told_at built.entry.now) numbers.now) }
{
    let mut edges: Vec<(FeatureId<'g>, FeatureId<'g>, &'g FeatureEdge)> = Vec::with_capacity(
        alloc,
        numbers.len(),
    )?;
    for number in numbers {
        let edge = built.edge(*number);
        let (from, to) = (built.feature_at(edge.from), built.feature_at(edge.to));
        edges.push((from, to, &edge.edge))?;
    }
    Ok(edges)
}

/// Those of the edges with these numbers that stand on lines, each as one link.
pub fn links_at<'g>(
    alloc: Global,
    built: &'g FeatureGraphData<'g>,
    numbers: &[usize],
) -> Result<Vec<ConditionalLink<'g>>, AllocError>
    requires { All (λ j. j < length built.now.edges) numbers.now }
    ensures { IfOk result (λ ls. map link_view ls.items
        ≡ map (whole_link built.entry.now) (filter (is_conditional built.entry.now) numbers.now)) }
{
    let mut links: Vec<ConditionalLink<'g>> = Vec::new(alloc);
    for number in numbers {
        if !built.edge(*number).edge.is_unconditional() {
            links.push(ConditionalLink::at(built, *number, LinkDeclarations::Unsplit))?;
        }
    }
    Ok(links)
}
