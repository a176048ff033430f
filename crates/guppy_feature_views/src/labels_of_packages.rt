//! The labels of all features of a package.

ghost use Rattle.std.specs.Prelude.{◌≡◌, IfOk, map};
ghost use Rattle.guppy_feature_demands.specs.LabelViews.{label_view};
ghost use Rattle.guppy_feature_views.specs.Labels.{labels_of};

use guppy_feature_demands::FeatureLabel;
use guppy_package_parts::{FeatureRow, PackageRow};
use std::alloc::{AllocError, Global};

/// The labels of the features that a package's row lists: the package itself, the features that it
/// names, and its optional dependencies.
pub fn package_labels<'g>(
    alloc: Global,
    row: &'g PackageRow,
) -> Result<Vec<FeatureLabel<'g>>, AllocError>
    ensures labels { IfOk result (λ v. map label_view v.items ≡ labels_of row.entry.now) }
{
    let mut labels: Vec<FeatureLabel<'g>> = Vec::new(alloc);
    labels.push(FeatureLabel::Base)?;
    let named: &[FeatureRow] = &row.features;
    for feature in named {
        labels.push(FeatureLabel::Named(feature.name.as_str()))?;
    }
    let optional: &[String] = &row.optional;
    for name in optional {
        labels.push(FeatureLabel::OptionalDependency(name.as_str()))?;
    }
    Ok(labels)
}
