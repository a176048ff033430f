//! Sets of features are equal where they have the same features.

ghost use Rattle.std.specs.Prelude.{◌≡◌};
ghost use Rattle.std.specs.List.{list_all};
ghost use Rattle.guppy_feature_demands.specs.IdViews.{id_view};
ghost use Rattle.guppy_feature_graph.specs.SetEquality.{agree_on, has_feature};

use crate::feature_graph::name_of;
use crate::feature_set::FeatureSet;
use guppy_feature_nodes::{FeatureGraphData, FeatureId};

impl FeatureSet<'_> {
    /// Whether a feature is in the set; one that its graph does not have is not.
    fn has_feature(&self, feature_id: FeatureId<'_>) -> bool
        ensures { result ≡ has_feature self.now (id_view feature_id.entry) }
    {
        let built = self.graph().built();
        let number = built.number_of(name_of(feature_id));
        number < built.feature_count() && self.included().contains(number)
    }
}

/// Whether each feature of a graph is in both sets or in neither.
fn agree_on_all<'g>(a: &FeatureSet<'_>, b: &FeatureSet<'_>, built: &'g FeatureGraphData<'g>) -> bool
    ensures { result ≡ list_all (agree_on a.now b.now) built.entry.now.nodes }
{
    for node in 0..built.feature_count() {
        let feature_id = built.feature_at(node);
        if a.has_feature(feature_id) != b.has_feature(feature_id) {
            return false;
        }
    }
    true
}

/// Sets are equal that have the same features, be they of one graph or of two. Takes time in
/// proportion to the features of both graphs.
impl PartialEq for FeatureSet<'_> {
    ghost use Rattle.std.specs.Cmp.{partial_equiv_from_equiv};
    ghost use Rattle.guppy_feature_graph.specs.SetEquality.{have_same_features, sets_equivalence};

    ghost eq = { have_same_features };

    ghost laws = { partial_equiv_from_equiv sets_equivalence };

    fn eq(&self, other: &Self) -> bool {
        agree_on_all(self, other, self.graph().built())
            && agree_on_all(self, other, other.graph().built())
    }
}

impl Eq for FeatureSet<'_> {
    ghost use Rattle.guppy_feature_graph.specs.SetEquality.{sets_equivalence};

    ghost laws = { sets_equivalence };
}
