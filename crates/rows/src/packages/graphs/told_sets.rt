//! Directions read from rows, and sets of packages that are told.

use guppy_package_graph::PackageSet;
use guppy_package_parts::DependencyDirection;
use row_program::{Answers, Row};
use serde_json::Value;
use std::alloc::{AllocError, Global};
use std::fmt::Display;

/// Where links are followed: backwards if the row says `"direction": "reverse"`.
pub(crate) fn direction_in(row: Row<'_>) -> DependencyDirection {
    match row.get("direction").and_then(Value::as_str) {
        Some("reverse") => DependencyDirection::Reverse,
        _ => DependencyDirection::Forward,
    }
}

/// Tells the ids of the packages of a set that was made, ascending, or why it was not.
pub(crate) fn tell_set<E: Display + Drop>(
    alloc: Global,
    key: &'static str,
    set: Result<PackageSet<'_>, E>,
    answers: &mut Answers,
) {
    match set {
        Ok(set) => answers.list(key, sorted_ids(alloc, &set)),
        Err(error) => answers.show(key, &error),
    }
}

fn sorted_ids<'g>(alloc: Global, set: &PackageSet<'g>) -> Result<Vec<&'g str>, AllocError> {
    let mut ids = Vec::new(alloc);
    for package in set.packages(DependencyDirection::Forward) {
        ids.push(package.id().repr())?;
    }
    ids.sort_unstable();
    Ok(ids)
}

/// As `tell_set`, of two sets that were made at once, with `; ` between both.
pub(crate) fn tell_parts(
    alloc: Global,
    key: &'static str,
    parts: Result<(PackageSet<'_>, PackageSet<'_>), AllocError>,
    answers: &mut Answers,
) {
    match parts {
        Ok((first, second)) => {
            answers.list(key, sorted_ids(alloc, &first));
            answers.add(&"; ");
            match sorted_ids(alloc, &second) {
                Ok(ids) => {
                    let mut is_first = true;
                    for id in &ids {
                        answers.part(if is_first { "" } else { " " }, id);
                        is_first = false;
                    }
                }
                Err(refused) => answers.keep(key, Err(refused)),
            }
        }
        Err(refused) => answers.keep(key, Err(refused)),
    }
}
