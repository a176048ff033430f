//! Sets of the features under `one` and `two`: joined, listed, with their roots and links.

use crate::features::graphs::features::{Asked, ids_of, named_in, tell_members};
use crate::features::graphs::packages::tell_packages;
use guppy_feature_graph::{FeatureId, FeatureSet};
use guppy_package_graph::{DependencyDirection, Error};
use row_program::{Answers, Row, RowFault};
use std::alloc::{AllocError, Global};

pub(crate) fn tell_sets(
    alloc: Global,
    row: Row<'_>,
    asked: Asked<'_, '_>,
    answers: &mut Answers,
) -> Result<(), RowFault> {
    if row.get("one").is_none() {
        return Ok(());
    }
    match set_in(alloc, row, asked, "one")? {
        Ok(one) => tell_one(alloc, row, asked, &one, answers),
        Err(error) => {
            answers.show("unknown", &error);
            Ok(())
        }
    }
}

fn tell_one(
    alloc: Global,
    row: Row<'_>,
    asked: Asked<'_, '_>,
    one: &FeatureSet<'_>,
    answers: &mut Answers,
) -> Result<(), RowFault> {
    match set_in(alloc, row, asked, "two")? {
        Ok(two) => tell_joined(alloc, one, &two, asked.features, answers),
        Err(error) => answers.show("unknown", &error),
    }
    tell_listed(alloc, one, answers)?;
    tell_packages(alloc, one, answers)?;
    Ok(())
}

fn set_in<'g>(
    alloc: Global,
    row: Row<'_>,
    asked: Asked<'_, 'g>,
    key: &'static str,
) -> Result<Result<FeatureSet<'g>, Error>, RowFault> {
    let named = named_in(alloc, row, key)?;
    let ids = ids_of(alloc, &named)?;
    Ok(asked.graph.resolve_ids(alloc, &ids))
}

fn tell_joined(
    alloc: Global,
    one: &FeatureSet<'_>,
    two: &FeatureSet<'_>,
    features: &[FeatureId<'_>],
    answers: &mut Answers,
) {
    if !one.same_features(two) {
        return answers.show("union", &"two graphs");
    }
    tell_members("union", one.union(alloc, two), features, answers);
    let intersection = one.intersection(alloc, two);
    tell_members("intersection", intersection, features, answers);
    let difference = one.difference(alloc, two);
    tell_members("difference", difference, features, answers);
    let either = one.symmetric_difference(alloc, two);
    tell_members("either", either, features, answers);
}

/// Tells the features in both directions, the roots and ends, and the links.
fn tell_listed(
    alloc: Global,
    one: &FeatureSet<'_>,
    answers: &mut Answers,
) -> Result<(), AllocError> {
    for (listed, roots, direction) in [
        ("listed", "roots", DependencyDirection::Forward),
        ("reversed", "ends", DependencyDirection::Reverse),
    ] {
        answers.begin(listed);
        for id in one.feature_ids(direction) {
            answers.part(" ", &id);
        }
        answers.list(roots, one.root_ids(alloc, direction));
    }
    answers.begin("inside");
    for (from, to, _) in &one.links(alloc)? {
        answers.part(" ", from);
        answers.part(">", to);
    }
    answers.begin("conditional");
    for link in &one.conditional_links(alloc)? {
        answers.part(" ", &link.from().feature_id());
        answers.part(">", &link.to().feature_id());
    }
    Ok(())
}
