//! The packages of a set of features, and the features of each.

use crate::features::graphs::features::shown_text;
use guppy_feature_graph::{FeatureList, FeatureQuery, FeatureSet};
use guppy_package_graph::{DependencyDirection, PackageId};
use row_program::Answers;
use std::alloc::{AllocError, Global};

/// Tells the packages, how many roots there are, and whether the set has a feature.
pub(crate) fn tell_packages(
    alloc: Global,
    one: &FeatureSet<'_>,
    answers: &mut Answers,
) -> Result<(), AllocError> {
    let forward = DependencyDirection::Forward;
    tell_lists(alloc, &one.packages_with_features(alloc, forward)?, answers);
    answers.show("packages", &one.to_package_set(alloc)?.len());
    answers.show("root_count", &one.root_features(alloc, forward)?.len());
    answers.part(", ", &one.features(forward).next().is_some());
    tell_query(alloc, &one.to_feature_query(alloc, forward)?, answers)
}

/// Tells the packages of a query, and whether it starts from a feature of the package `app`.
fn tell_query(
    alloc: Global,
    query: &FeatureQuery<'_>,
    answers: &mut Answers,
) -> Result<(), AllocError> {
    answers.begin("initial_packages");
    for package in query.initial_packages() {
        answers.part(" ", package.id());
    }
    let app = PackageId::new(String::from_str(alloc, "app")?);
    answers.told("starts_from_app", query.starts_from_package(&app));
    Ok(())
}

/// Tells each list, with what it says of its labels.
fn tell_lists(alloc: Global, lists: &[FeatureList<'_>], answers: &mut Answers) {
    answers.begin("by_package");
    for list in lists {
        answers.part(" ", list.package().id());
        answers.answered("(", shown_text(alloc, list));
        answers.add(&if list.has_base() { ", base; " } else { "; " });
        add_labels(list, answers);
        answers.add(&")");
    }
}

/// Adds the names of features, and those of optional dependencies, with a `?` for each that the list denies.
fn add_labels(list: &FeatureList<'_>, answers: &mut Answers) {
    let mut is_first = true;
    for name in list.named_features() {
        if list.has_named_feature(name) {
            answers.part(if is_first { "" } else { " " }, &name);
            is_first = false;
        }
    }
    answers.add(&"; ");
    is_first = true;
    for name in list.optional_deps() {
        if list.has_optional_dependency(name) {
            answers.part(if is_first { "" } else { " " }, &name);
            is_first = false;
        }
    }
    for id in list {
        if !list.contains(id.label()) {
            answers.add(&"?");
        }
    }
}
