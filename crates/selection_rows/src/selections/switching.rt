//! What the features that are on switch on, as texts.

use row_program::{Answers, Question, Row, RowFault, add_feature, record_in};
use std::alloc::Global;
use std::fmt::Display;
use test_select::{
    FeaturesOn, LinkRecord, PlatformTable, WorkspaceRecord, declared_graph, features_on,
    switched_on,
};
use test_select_rules::availability::is_available;

/// Tells the features that are on, or the error, and which links and targets of the record
/// `switched.json` they switch on.
pub(crate) fn tell_switching(
    alloc: Global,
    row: Row<'_>,
    question: Question<'_>,
    answers: &mut Answers,
) -> Result<(), RowFault> {
    let Question {
        record,
        choice,
        table,
    } = question;
    match features_on(alloc, record, choice, table) {
        Ok(on) => tell_on(alloc, row, table, &on, answers),
        Err(error) => {
            answers.show("on", &error);
            Ok(())
        }
    }
}

/// Tells what is on. A feature that `contains` denies has a `?` before it.
fn tell_on(
    alloc: Global,
    row: Row<'_>,
    table: &PlatformTable,
    on: &FeaturesOn,
    answers: &mut Answers,
) -> Result<(), RowFault> {
    answers.begin("on");
    for feature in on.as_slice() {
        answers.part(" ", if on.contains(feature) { &"" } else { &"?" });
        add_feature(feature, answers);
    }
    if row.file_value("switched.json").is_some() {
        let switched = record_in(alloc, row, "switched.json")?;
        tell_links(alloc, &switched, table, on, answers);
        tell_targets(&switched, on, answers);
    }
    Ok(())
}

/// Tells of each link of the record whether it is left where the lines that are on are.
fn tell_links(
    alloc: Global,
    record: &WorkspaceRecord,
    table: &PlatformTable,
    on: &FeaturesOn,
    answers: &mut Answers,
) {
    match declared_graph(alloc, record) {
        Ok(graph) => match switched_on(alloc, &graph, on, table) {
            Ok(switched) => {
                answers.begin("links");
                for link in graph.link_rows() {
                    let is_on = has_link(switched.link_rows(), link);
                    add_line(&link.from, &link.name, is_on, answers);
                }
            }
            Err(refused) => answers.keep("links", Err(refused)),
        },
        Err(error) => answers.show("links", &error),
    }
}

fn has_link(links: &[LinkRecord], link: &LinkRecord) -> bool {
    links.iter().any(|it| it.from == link.from && it.to == link.to && it.name == link.name)
}

fn tell_targets(record: &WorkspaceRecord, on: &FeaturesOn, answers: &mut Answers) {
    answers.begin("targets");
    for row in &record.packages {
        for target in &row.targets {
            let available = is_available(on, row.id.as_str(), target);
            add_line(&row.id, &target.name, available, answers);
        }
    }
}

fn add_line<T: Display>(owner: &T, name: &T, holds: bool, answers: &mut Answers) {
    answers.add(owner);
    answers.add(&" ");
    answers.add(name);
    answers.add(&if holds { " yes\n" } else { " no\n" });
}
