//! Asking a filter about each of several features.

ghost use Rattle.std.specs.Prelude.{◌≡◌, ◌↔◌, ◌<◌, ◌≤◌, ◌∷◌, ◌++◌, [], ℕ, true, Contains, IfOk, IsTrue, OnErr, length, vec_capacity, vec_len, if◌then◌else◌};
ghost use Rattle.numbered_graph.specs.Sets.{has};
ghost use Rattle.guppy_feature_nodes.specs.Graphs.{feature_at};
ghost use Rattle.guppy_package_graph.specs.Visits.{Chain, SameSteps};
ghost use Rattle.guppy_feature_graph.specs.Judging.{AreJudged, Judged, shown_features};
ghost use Rattle.guppy_feature_graph.specs.Queries.{AreStarts};
ghost use Rattle.guppy_feature_graph.specs.Views.{feature_graph_of};

use crate::feature_filter::FeatureFilter;
use crate::feature_graph::FeatureGraph;
use numbered_graph::NodeSet;
use std::alloc::{AllocError, Global};

/// The features that a filter takes, as a set and as a list that ascends.
#[derive(Drop)]
pub(crate) struct Taken {
    pub included: NodeSet,
    pub starts: Vec<usize>,
}

/// The features of a set that a filter takes. All memory is taken before it is asked.
pub(crate) fn take_by_filter<F: FeatureFilter>(
    alloc: Global,
    graph: &FeatureGraph<'_>,
    wanted: &NodeSet,
    filter: &mut F,
) -> Result<Taken, AllocError>
    requires sized { length wanted.now ≡ length (feature_graph_of graph.now).nodes }
    requires can { F.can_accept filter.old }
    ensures sized { IfOk result (λ t. length t.included
        ≡ length (feature_graph_of graph.now).nodes) }
    ensures starts { IfOk result (λ t. AreStarts (length (feature_graph_of graph.now).nodes)
        t.included t.starts.items) }
    ensures ok { IfOk result
        (λ t. (judged : Judged) × AreJudged (λ v. IsTrue (has wanted.now v)) judged
        × Chain (F.steps filter.old) (F.state filter.old)
        (shown_features (feature_graph_of graph.now) judged) (F.state filter.new)
        × ((v : ℕ) → IsTrue (has t.included v) ↔ Contains judged (v, true))) }
    ensures same { SameSteps (F.steps filter.old) (F.steps filter.new) }
    ensures can { F.can_accept filter.new }
    ensures err { OnErr result (filter.new ≡ filter.old) }
{
    let nodes = wanted.members(alloc)?;
    let mut included = NodeSet::none(alloc, graph.feature_count())?;
    let mut starts = Vec::with_capacity(alloc, nodes.len())?;
    for node in &nodes {
        let accepted = ask_filter(filter, graph, *node);
        included.insert_if(*node, accepted);
        push_within(&mut starts, *node, accepted);
    }
    Ok(Taken { included, starts })
}

fn ask_filter<F: FeatureFilter>(filter: &mut F, graph: &FeatureGraph<'_>, node: usize) -> bool
    requires within { node < length (feature_graph_of graph.now).nodes }
    requires can { F.can_accept filter.old }
    ensures step { F.steps filter.old (F.state filter.old)
        (feature_graph_of graph.now, feature_at (feature_graph_of graph.now) node) result
        (F.state filter.new) }
    ensures same { SameSteps (F.steps filter.old) (F.steps filter.new) }
    ensures can { F.can_accept filter.new }
{
    filter.accept(graph, graph.built().feature_at(node))
}

// Puts the number at the end of a list that has room for it, where it is wanted.
fn push_within(numbers: &mut Vec<usize>, number: usize, wanted: bool)
    requires { vec_len numbers.old < vec_capacity numbers.old }
    ensures items { numbers.new.items ≡ (if wanted then numbers.old.items ++ number ∷ []
        else numbers.old.items) }
    ensures capacity { vec_capacity numbers.old ≤ vec_capacity numbers.new }
{
    if wanted {
        let _ = numbers.push(number);
    }
}
