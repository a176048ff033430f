//! Parts of the set under `set` that callbacks choose, its roots and its ids.

use crate::packages::graphs::told_sets::{direction_in, tell_parts, tell_set};
use guppy_package_graph::{PackageMetadata, PackageSet};
use guppy_package_parts::DependencyDirection;
use row_program::{Answers, Row, RowFault};
use std::alloc::Global;

/// What is kept of the set: the packages under `wanted`, those that are not there, and of these those
/// under `unwanted`.
pub(crate) fn tell_choices(
    alloc: Global,
    row: Row<'_>,
    set: &PackageSet<'_>,
    answers: &mut Answers,
) -> Result<(), RowFault> {
    let direction = direction_in(row);
    answers.list("roots", set.root_ids(alloc, direction));
    answers.begin("roots");
    for package in &set.root_packages(alloc, direction)? {
        answers.part(" ", package.id());
    }
    answers.begin("ids");
    for id in set.package_ids(direction) {
        answers.part(" ", id);
    }
    let wanted = row.texts(alloc, "wanted")?;
    let unwanted = row.texts(alloc, "unwanted")?;
    tell_chosen(alloc, set, direction, &wanted, &unwanted, answers);
    Ok(())
}

fn tell_chosen(
    alloc: Global,
    set: &PackageSet<'_>,
    direction: DependencyDirection,
    wanted: &[&str],
    unwanted: &[&str],
    answers: &mut Answers,
) {
    let accepted = set.filter(alloc, direction, |package: PackageMetadata<'_>| -> bool {
        wanted.contains(&package.name())
    });
    tell_set(alloc, "accepted", accepted, answers);
    let parts = set.partition(alloc, direction, |package: PackageMetadata<'_>| -> bool {
        wanted.contains(&package.name())
    });
    tell_parts(alloc, "parts", parts, answers);
    let parts = set.filter_partition(
        alloc,
        direction,
        |package: PackageMetadata<'_>| -> Option<bool> {
            if wanted.contains(&package.name()) {
                Some(true)
            } else if unwanted.contains(&package.name()) {
                Some(false)
            } else {
                None
            }
        },
    );
    tell_parts(alloc, "of_three", parts, answers);
}
