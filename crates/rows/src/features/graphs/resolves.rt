//! What is reached from the features under `starts`, alone or by the links that a visitor accepts.

ghost use Rattle.std.specs.Prelude.{◌≡◌, ◌<◌};

use crate::features::graphs::chooser::{Chooser, Rule};
use crate::features::graphs::features::{Asked, add_members, tell_members};
use guppy_feature_graph::{
    ConditionalLink, FeatureGraph, FeatureId, FeatureLinkContext, FeatureQuery, FeatureSet,
};
use guppy_package_graph::Error;
use numbered_graph::Looks;
use row_program::{Answers, Row, RowFault};
use serde_json::Value;
use std::alloc::{AllocError, Global};
use std::marker::Brand;
use std::sync::ledger::{Blank, Ledger};

pub(crate) fn tell_resolves(
    alloc: Global,
    row: Row<'_>,
    asked: Asked<'_, '_>,
    starts: &[FeatureId<'_>],
    answers: &mut Answers,
) -> Result<(), RowFault> {
    let rule = Rule::of(row)?;
    match query_of(alloc, row, asked.graph, starts) {
        Ok(query) => tell_reach(alloc, asked, query, answers),
        Err(error) => answers.show("refused", &error),
    }
    if let Some(rule) = rule {
        for way in [Way::Visitor, Way::Counted, Way::Closure] {
            if let Ok(query) = query_of(alloc, row, asked.graph, starts) {
                tell_run(alloc, asked, query, way, rule, answers);
            }
        }
    }
    Ok(())
}

fn tell_reach(alloc: Global, asked: Asked<'_, '_>, query: FeatureQuery<'_>, answers: &mut Answers) {
    answers.begin("initials");
    add_members(query.initials(), asked.features, answers);
    let reached = query.resolve(alloc);
    if let Ok(reached) = &reached {
        answers.show("reached_count", &reached.len());
    }
    tell_members("reached", reached, asked.features, answers);
}

/// How the rule is asked: by a visitor, by one whose looks are counted, or by a closure.
#[derive(Clone, Copy)]
enum Way {
    Visitor,
    Counted,
    Closure,
}

/// Tells what a run offered, how many offers it made, and what it included.
fn tell_run(
    alloc: Global,
    asked: Asked<'_, '_>,
    query: FeatureQuery<'_>,
    way: Way,
    rule: Rule,
    answers: &mut Answers,
) {
    let mut chooser = Chooser::new(alloc, rule);
    let included = included_by(alloc, query, way, &mut chooser);
    chooser.tell(answers);
    tell_members("included", included, asked.features, answers);
}

fn included_by<'g>(
    alloc: Global,
    query: FeatureQuery<'g>,
    way: Way,
    chooser: &mut Chooser,
) -> Result<FeatureSet<'g>, AllocError> {
    match way {
        Way::Visitor => query.resolve_with(alloc, chooser),
        Way::Counted => counted::<Brand>(alloc, query, chooser, Blank::new(1)),
        Way::Closure => query.resolve_with_fn(
            alloc,
            |cx: &FeatureLinkContext<'_>, link: ConditionalLink<'_>| -> bool {
                chooser.choose(cx, link)
            },
        ),
    }
}

fn counted<'g, L: Ledger>(
    alloc: Global,
    query: FeatureQuery<'g>,
    chooser: &mut Chooser,
    blank: Blank,
) -> Result<FeatureSet<'g>, AllocError>
    requires name { blank.name ≡ L.name }
    requires parts { blank.parts ≡ L.parts }
    requires some { 0 < blank.parts }
{
    let mut looks = Looks::<L>::new(blank);
    query.resolve_with_counted(alloc, chooser, &mut looks)
}

fn query_of<'g>(
    alloc: Global,
    row: Row<'_>,
    graph: FeatureGraph<'g>,
    starts: &[FeatureId<'_>],
) -> Result<FeatureQuery<'g>, Error> {
    match row.get("direction").and_then(Value::as_str) {
        Some("reverse") => graph.query_reverse(alloc, starts),
        _ => graph.query_forward(alloc, starts),
    }
}
