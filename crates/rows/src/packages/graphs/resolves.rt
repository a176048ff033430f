//! What is reached from the packages under `starts`, alone or by the links that a closure accepts.

use crate::ids::{ids_in, lent};
use crate::packages::graphs::link_texts::link_text;
use crate::packages::graphs::told_sets::{direction_in, tell_set};
use guppy_package_graph::{PackageGraph, PackageLink, PackageLinkContext, PackageQuery};
use guppy_package_parts::{DependencyDirection, Error, PackageId};
use row_program::{Answers, Row, RowFault};
use serde_json::Value;
use std::alloc::Global;

pub(crate) fn tell_resolves(
    alloc: Global,
    row: Row<'_>,
    graph: &PackageGraph,
    answers: &mut Answers,
) -> Result<(), RowFault> {
    let ids = ids_in(alloc, row, "starts")?;
    let ids = lent(alloc, &ids)?;
    let refused = row.texts(alloc, "refused")?;
    let from_members = graph.query_workspace(alloc)?.resolve(alloc);
    tell_set(alloc, "reached_from_members", from_members, answers);
    let direction = direction_in(row);
    tell_reached(alloc, query_from(alloc, graph, &ids, direction), answers);
    match query_from(alloc, graph, &ids, direction) {
        Ok(query) => tell_included(alloc, row, query, &refused, answers),
        Err(error) => answers.show("included", &error),
    }
    Ok(())
}

fn query_from<'g>(
    alloc: Global,
    graph: &'g PackageGraph,
    ids: &[&PackageId],
    direction: DependencyDirection,
) -> Result<PackageQuery<'g>, Error> {
    match direction {
        DependencyDirection::Forward => graph.query_forward(alloc, ids),
        DependencyDirection::Reverse => graph.query_reverse(alloc, ids),
    }
}

fn tell_reached(alloc: Global, query: Result<PackageQuery<'_>, Error>, answers: &mut Answers) {
    match query {
        Ok(query) => {
            answers.begin("initials");
            for package in query.initials() {
                answers.part(" ", package.id());
            }
            let reached = query.resolve(alloc);
            if let Ok(reached) = &reached {
                answers.show("reached_count", &reached.len());
            }
            tell_set(alloc, "reached", reached, answers);
        }
        Err(error) => answers.show("reached", &error),
    }
}

/// Resolves by a closure that refuses the links with these names. Tells the numbers of the links that it was
/// shown, and what the wanted link said.
fn tell_included(
    alloc: Global,
    row: Row<'_>,
    query: PackageQuery<'_>,
    refused: &[&str],
    answers: &mut Answers,
) {
    let mut numbers = Vec::new(alloc);
    let mut texts = Vec::new(alloc);
    let wanted = row.get("link").and_then(Value::as_u64);
    let included = query.resolve_with_fn(
        alloc,
        |cx: &PackageLinkContext<'_>, link: PackageLink<'_>| {
            let kept = numbers.push(link.number()).is_ok();
            let told = wanted != Some(link.number() as u64)
                || texts.push(link_text(alloc, cx, link)).is_ok();
            kept && told && !refused.contains(&link.dep_name())
        },
    );
    tell_set(alloc, "included", included, answers);
    numbers.sort_unstable();
    answers.list("shown", Ok(numbers));
    for text in texts {
        answers.keep("told", text);
    }
}
