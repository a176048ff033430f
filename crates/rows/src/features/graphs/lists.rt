//! The features of packages, default features, cycles, and what filters take.

use crate::features::graphs::features::{Asked, add_members, shown_text, tell_members};
use crate::ids::id_in;
use guppy_feature_graph::{
    Cycles, FeatureFilter, FeatureGraph, FeatureId, StandardFeatures, default_feature_id,
    package_to_feature_set,
};
use guppy_package_graph::PackageId;
use row_program::{Answers, Row, RowFault};
use std::alloc::{AllocError, Global};

pub(crate) fn tell_lists(
    alloc: Global,
    row: Row<'_>,
    asked: Asked<'_, '_>,
    starts: &[FeatureId<'_>],
    answers: &mut Answers,
) -> Result<(), RowFault> {
    if let Some(id) = id_in(alloc, row, "package")? {
        tell_package(alloc, asked, starts, &id, answers);
    }
    answers.begin("defaults");
    for id in asked.features {
        if let Ok(true) = asked.graph.is_default_feature(*id) {
            answers.part(" ", id);
        }
    }
    answers.show("verified", &asked.graph.verify().is_ok());
    tell_cycles(alloc, asked.graph, starts, answers)?;
    tell_workspace(alloc, asked, answers)?;
    Ok(())
}

/// Tells the features of a package, and which of the starts are among them.
fn tell_package(
    alloc: Global,
    asked: Asked<'_, '_>,
    starts: &[FeatureId<'_>],
    id: &PackageId,
    answers: &mut Answers,
) {
    match asked.graph.all_features_for(alloc, id) {
        Ok(list) => {
            answers.keep("features", shown_text(alloc, &list));
            answers.show("default", &default_feature_id(list.package()));
            match asked.graph.package_graph().metadata(list.package().id()) {
                Ok(package) => {
                    let own = package_to_feature_set(alloc, &asked.graph, &package);
                    tell_members("own", own, asked.features, answers);
                }
                Err(error) => answers.show("own", &error),
            }
            tell_kept(alloc, asked.graph, starts, id, answers);
        }
        Err(error) => answers.show("features", &error),
    }
}

fn tell_kept(
    alloc: Global,
    graph: FeatureGraph<'_>,
    starts: &[FeatureId<'_>],
    id: &PackageId,
    answers: &mut Answers,
) {
    answers.begin("kept");
    match graph.resolve_ids(alloc, starts) {
        Ok(set) => {
            answers.answered("", set.contains_package(id));
            match set.features_for(alloc, id) {
                Ok(Some(list)) => answers.answered(": ", shown_text(alloc, &list)),
                Ok(None) => answers.part(": ", &"none"),
                Err(error) => answers.part(": ", &error),
            }
        }
        Err(error) => answers.add(&error),
    }
}

/// Tells the cycles, and how the first two of the starts stand to each other.
fn tell_cycles(
    alloc: Global,
    graph: FeatureGraph<'_>,
    starts: &[FeatureId<'_>],
    answers: &mut Answers,
) -> Result<(), AllocError> {
    let cycles = graph.cycles(alloc)?;
    answers.begin("cycles");
    for cycle in cycles.all_cycles() {
        answers.part(";", &"");
        for id in cycle {
            answers.part(" ", &id);
        }
    }
    if let [a, b, ..] = starts {
        tell_pair(alloc, graph, &cycles, *a, *b, answers);
    }
    Ok(())
}

fn tell_pair(
    alloc: Global,
    graph: FeatureGraph<'_>,
    cycles: &Cycles<'_>,
    a: FeatureId<'_>,
    b: FeatureId<'_>,
    answers: &mut Answers,
) {
    match graph.depends_on(alloc, a, b) {
        Ok(depends) => {
            answers.show("pair", &"depends");
            answers.part(" ", &depends);
            answers.answered(", directly ", graph.directly_depends_on(a, b));
            answers.answered(", cyclic ", cycles.is_cyclic(a, b));
        }
        Err(error) => answers.show("pair", &error),
    }
}

/// Takes each feature, and counts.
#[derive(Drop)]
struct Counter {
    calls: usize,
}

impl FeatureFilter for Counter {
    ghost use Rattle.std.specs.Prelude.{◌≡◌, [], ⊤};

    ghost state = { λ _. [] };

    ghost steps = { λ _ _ _ _ t. t ≡ [] };

    ghost can_accept = { λ _. ⊤ };

    fn accept(&mut self, _graph: &FeatureGraph<'_>, _feature_id: FeatureId<'_>) -> bool {
        self.calls = self.calls.saturating_add(1);
        true
    }
}

/// Tells how many features of the workspace each standard choice takes, and how often a filter is asked, and
/// what is taken.
fn tell_workspace(
    alloc: Global,
    asked: Asked<'_, '_>,
    answers: &mut Answers,
) -> Result<(), AllocError> {
    answers.begin("standard");
    for standard in StandardFeatures::VALUES {
        let mut filter = *standard;
        let query = asked.graph.query_workspace(alloc, &mut filter)?;
        answers.part(" ", &query.initials().len());
    }
    let mut counter = Counter { calls: 0 };
    let query = asked.graph.query_workspace(alloc, &mut counter)?;
    answers.show("workspace", &counter.calls);
    answers.add(&" calls: ");
    add_members(query.initials(), asked.features, answers);
    Ok(())
}
