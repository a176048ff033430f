//! Laws that hold of every legal run, every feature, every label and every set of features.

ghost use Rattle.guppy_feature_graph.specs.Laws.{FeaturesAreLawful, LabelsAreLawful};
ghost use Rattle.guppy_feature_graph.specs.Resolves.{IsAlwaysLeast};
ghost use Rattle.guppy_feature_graph.specs.SetEquality.{SetsAreToldByFeatures};

pub use guppy_package_graph::laws::exact_sizes_are_exact;

/// At the end of a legal run whose answers depend on the link alone, what is reached is the least set
/// that holds the initials and is closed under the edges that are crossed always and the offers that
/// are accepted.
pub fn least()
    ensures least { IsAlwaysLeast }
{
    numbered_offers::laws::least();
}

/// Equality of features is an equivalence, their order is total and tells just unequal features apart,
/// and equal features feed a hasher the same.
pub fn features_are_lawful()
    ensures features { FeaturesAreLawful }
{}

/// The same of labels.
pub fn labels_are_lawful()
    ensures labels { LabelsAreLawful }
{}

/// Sets of features are equal exactly where each feature is in both or in neither.
pub fn sets_are_told_by_features()
    ensures told { SetsAreToldByFeatures }
{}
