//! The sets under `set` and `other`: how they are listed, and what is made of both.

use crate::ids::{id_in, ids_in, lent};
use crate::packages::graphs::set_choices::tell_choices;
use crate::packages::graphs::told_sets::tell_set;
use guppy_package_graph::{PackageGraph, PackageSet};
use guppy_package_parts::{DependencyDirection, Error};
use row_program::{Answers, Row, RowFault};
use std::alloc::{AllocError, Global};

pub(crate) fn tell_sets(
    alloc: Global,
    row: Row<'_>,
    graph: &PackageGraph,
    answers: &mut Answers,
) -> Result<(), RowFault> {
    tell_whole_sets(alloc, graph, answers)?;
    match set_in(alloc, row, graph, "set")? {
        Ok(set) => tell_one(alloc, row, graph, &set, answers),
        Err(error) => {
            answers.show("listed", &error);
            Ok(())
        }
    }
}

fn tell_one(
    alloc: Global,
    row: Row<'_>,
    graph: &PackageGraph,
    set: &PackageSet<'_>,
    answers: &mut Answers,
) -> Result<(), RowFault> {
    tell_listing(set, answers);
    if let Some(id) = id_in(alloc, row, "package")? {
        answers.told("contained", set.contains(&id));
    }
    tell_choices(alloc, row, set, answers)?;
    match set_in(alloc, row, graph, "other")? {
        Ok(other) => tell_both(alloc, set, &other, answers),
        Err(error) => answers.show("union", &error),
    }
    Ok(())
}

/// The members, all packages, and the sizes of the sets of all and of none.
fn tell_whole_sets(
    alloc: Global,
    graph: &PackageGraph,
    answers: &mut Answers,
) -> Result<(), AllocError> {
    tell_set(alloc, "members", graph.resolve_workspace(alloc), answers);
    let (all, none) = (graph.resolve_all(alloc)?, graph.resolve_none(alloc)?);
    answers.begin("all");
    for package in all.packages(DependencyDirection::Forward) {
        answers.part(" ", package.id());
    }
    answers.show("sizes", &all.len());
    answers.part(" ", &all.is_empty());
    answers.part(", ", &none.len());
    answers.part(" ", &none.is_empty());
    Ok(())
}

fn set_in<'g>(
    alloc: Global,
    row: Row<'_>,
    graph: &'g PackageGraph,
    key: &'static str,
) -> Result<Result<PackageSet<'g>, Error>, RowFault> {
    let ids = ids_in(alloc, row, key)?;
    let ids = lent(alloc, &ids)?;
    Ok(graph.resolve_ids(alloc, &ids))
}

/// The packages of the set from both ends, in both directions.
fn tell_listing(set: &PackageSet<'_>, answers: &mut Answers) {
    let (forward, reverse) = (DependencyDirection::Forward, DependencyDirection::Reverse);
    answers.show("lengths", &set.packages(forward).len());
    answers.part(" of ", &set.len());
    for (key, direction, other) in [
        ("listed", forward, reverse),
        ("listed_reverse", reverse, forward),
    ] {
        answers.begin(key);
        for package in set.packages(direction) {
            answers.part(" ", package.id());
        }
        answers.begin(key);
        for package in set.packages(other).rev() {
            answers.part(" ", package.id());
        }
    }
}

fn tell_both(alloc: Global, set: &PackageSet<'_>, other: &PackageSet<'_>, answers: &mut Answers) {
    if !set.same_packages(other) {
        return answers.show("union", &"two graphs");
    }
    tell_set(alloc, "union", set.union(alloc, other), answers);
    let intersection = set.intersection(alloc, other);
    tell_set(alloc, "intersection", intersection, answers);
    let difference = set.difference(alloc, other);
    tell_set(alloc, "difference", difference, answers);
    let symmetric = set.symmetric_difference(alloc, other);
    tell_set(alloc, "symmetric_difference", symmetric, answers);
}
