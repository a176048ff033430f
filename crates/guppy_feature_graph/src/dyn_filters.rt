//! Filters whose types are known only as the program runs, boxed and lent.

use crate::feature_filter::FeatureFilter;
use crate::feature_graph::FeatureGraph;
use guppy_feature_nodes::FeatureId;

impl FeatureFilter for Box<dyn FeatureFilter + Drop> {
    ghost state = { λ f. (FeatureFilter-box f).state f.value };

    ghost steps = { λ f. (FeatureFilter-box f).steps f.value };

    ghost can_accept = { λ f. (FeatureFilter-box f).can_accept f.value };

    fn accept(&mut self, graph: &FeatureGraph<'_>, feature_id: FeatureId<'_>) -> bool {
        (**self).accept(graph, feature_id)
    }
}

// Of a lent one a call says what the reference shows as it returns; that it is the same reference stands in no
// contract.
impl FeatureFilter for &mut dyn FeatureFilter {
    ghost state = { λ f. (FeatureFilter-dyn f.now).state f.now.1 };

    ghost steps = { λ f. (FeatureFilter-dyn f.now).steps f.now.1 };

    ghost can_accept = { λ f. (FeatureFilter-dyn f.now).can_accept f.now.1 };

    fn accept(&mut self, graph: &FeatureGraph<'_>, feature_id: FeatureId<'_>) -> bool {
        (**self).accept(graph, feature_id)
    }
}
