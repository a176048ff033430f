//! What is odd about a record's features.

ghost use Rattle.std.specs.Prelude.{◌≡◌, IfOk};
ghost use Rattle.guppy_package_parts.specs.WarningViews.{stage_view, warning_view};

use crate::package_id::PackageId;
use std::alloc::{AllocError, Global};

/// What a feature graph was being built of when a warning came.
#[derive(Debug, Drop, PartialEq, Eq)]
pub enum FeatureBuildStage {
    /// The entries of a package's named feature.
    AddNamedFeatureEdges {
        package_id: PackageId,
        from_feature: String,
    },
    /// The features that a package asks of a dependency, which has this name.
    AddDependencyEdges {
        package_id: PackageId,
        dep_name: String,
    },
}

impl FeatureBuildStage {
    /// An equal value in memory of its own.
    pub fn copy(&self, alloc: Global) -> Result<FeatureBuildStage, AllocError>
        ensures { IfOk result (λ s. stage_view s ≡ stage_view self.now) }
    {
        match self {
            FeatureBuildStage::AddNamedFeatureEdges {
                package_id,
                from_feature,
            } => {
                let package_id = package_id.copy(alloc)?;
                let from_feature = String::from_str(alloc, from_feature.as_str())?;
                Ok(FeatureBuildStage::AddNamedFeatureEdges {
                    package_id,
                    from_feature,
                })
            }
            FeatureBuildStage::AddDependencyEdges {
                package_id,
                dep_name,
            } => {
                let package_id = package_id.copy(alloc)?;
                let dep_name = String::from_str(alloc, dep_name.as_str())?;
                Ok(FeatureBuildStage::AddDependencyEdges {
                    package_id,
                    dep_name,
                })
            }
        }
    }
}

/// What is odd about the features of a record, but does not keep a feature graph from being built.
#[derive(Debug, Drop, PartialEq, Eq)]
pub enum FeatureGraphWarning {
    // The name is the printed label: `dep:d` for an optional dependency.
    /// The package lacks a feature that is named at this stage.
    MissingFeature {
        stage: FeatureBuildStage,
        package_id: PackageId,
        feature_name: String,
    },
    /// The package's feature names itself.
    SelfLoop {
        package_id: PackageId,
        feature_name: String,
    },
}

impl FeatureGraphWarning {
    /// An equal value in memory of its own.
    pub fn copy(&self, alloc: Global) -> Result<FeatureGraphWarning, AllocError>
        ensures { IfOk result (λ w. warning_view w ≡ warning_view self.now) }
    {
        match self {
            FeatureGraphWarning::MissingFeature {
                stage,
                package_id,
                feature_name,
            } => {
                let package_id = package_id.copy(alloc)?;
                let feature_name = String::from_str(alloc, feature_name.as_str())?;
                let stage = stage.copy(alloc)?;
                Ok(FeatureGraphWarning::MissingFeature {
                    stage,
                    package_id,
                    feature_name,
                })
            }
            FeatureGraphWarning::SelfLoop {
                package_id,
                feature_name,
            } => {
                let package_id = package_id.copy(alloc)?;
                let feature_name = String::from_str(alloc, feature_name.as_str())?;
                Ok(FeatureGraphWarning::SelfLoop {
                    package_id,
                    feature_name,
                })
            }
        }
    }
}
