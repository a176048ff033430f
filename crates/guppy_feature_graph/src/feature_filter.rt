//! Those who say of each feature whether it is taken.

ghost use Rattle.std.specs.Prelude.{Bool, List, ℕ};
ghost use Rattle.workspace_record.specs.Features.{FeatureValue};
ghost use Rattle.guppy_package_graph.specs.Visits.{SameSteps};
ghost use Rattle.guppy_feature_demands.specs.IdViews.{id_view};
ghost use Rattle.guppy_feature_nodes.specs.Graphs.{FeatureGraphValue};
ghost use Rattle.guppy_feature_graph.specs.Views.{feature_graph_of};

use crate::feature_graph::FeatureGraph;
use guppy_feature_nodes::FeatureId;

/// Says of each feature that it is asked about whether it is taken. Its state is seen as a list of
/// whole numbers; its steps relate the state before, the graph with the feature, the answer and the
/// state after, and no call changes them. It can be asked where `can_accept` holds, as after each
/// call.
pub trait FeatureFilter {
    ghost state: { Self → List ℕ };

    ghost steps: { Self → List ℕ → FeatureGraphValue × FeatureValue → Bool → List ℕ → Type 0 };

    ghost can_accept: { Self → Type 0 };

    /// Whether the feature is taken.
    fn accept(&mut self, graph: &FeatureGraph<'_>, feature_id: FeatureId<'_>) -> bool
        requires { can_accept self.old }
        ensures step { steps self.old (state self.old)
            (feature_graph_of graph.now, id_view feature_id.entry) result (state self.new) }
        ensures same { SameSteps (steps self.old) (steps self.new) }
        ensures can { can_accept self.new };
}
