//! All packages of a graph, and its cycles.

use guppy_package_graph::{PackageGraph, PackageIdsAt};
use row_program::Answers;
use std::alloc::{AllocError, Global};

pub(crate) fn tell_whole_graph(
    alloc: Global,
    graph: &PackageGraph,
    answers: &mut Answers,
) -> Result<(), AllocError> {
    answers.begin("packages");
    for package in graph.packages() {
        answers.part(" ", package.id());
    }
    let cycles = graph.cycles(alloc)?;
    answers.begin("cycles");
    for cycle in cycles.all_cycles() {
        add_cycle(alloc, cycle, answers)?;
    }
    answers.begin("cycles_back");
    for cycle in cycles.all_cycles().rev() {
        add_cycle(alloc, cycle, answers)?;
    }
    Ok(())
}

/// Adds the ids of one cycle, ascending.
fn add_cycle(
    alloc: Global,
    cycle: PackageIdsAt<'_, '_>,
    answers: &mut Answers,
) -> Result<(), AllocError> {
    let mut ids = Vec::new(alloc);
    for id in cycle {
        ids.push(id)?;
    }
    ids.sort_unstable();
    let mut is_first = true;
    for id in &ids {
        answers.add(&if is_first { "[" } else { " " });
        answers.add(id);
        is_first = false;
    }
    answers.add(&"]");
    Ok(())
}
