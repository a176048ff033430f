//! Selections, and graphs that are switched on.

use crate::refusals::turns::{AllocatingCall, Refusal, answered, refuse_in_turn};
use crate::workspace::{
    CHOICE, IDS, LISTINGS, Question, RECORD, debugged, graph_of, question_of, selected,
};
use guppy_package_graph::PackageGraph;
use std::alloc::Global;
use test_select::{
    FeaturesOn, FileLister, PlatformTable, ReadError, SelectError, Selection, features_on,
    read_listings, switched_on,
};

/// Makes the switched-on graph, and tells how many links it has.
#[derive(Drop)]
struct Switches<'w> {
    graph: &'w PackageGraph,
    on: &'w FeaturesOn,
    table: &'w PlatformTable,
}

impl AllocatingCall for Switches<'_> {
    fn answer(&mut self, alloc: Global) -> Result<String, Refusal> {
        let graph = switched_on(alloc, self.graph, self.on, self.table)?;
        Ok(format!(in alloc; "{}", graph.link_count())?)
    }
}

#[test]
fn switched_on_graphs(rt: HostRuntime) {
    let question = question_of(&rt, rt.alloc(), RECORD, CHOICE);
    let (record, choice, table) = (&question.record, &question.choice, &question.table);
    let on = &features_on(rt.alloc(), record, choice, table).expect(&rt, "what is on");
    let graph = &graph_of(&rt, rt.alloc(), RECORD);
    refuse_in_turn(&rt, rt.alloc(), &mut Switches { graph, on, table }, "1");
}

/// Selects, and tells the report. Where that is refused, the ids that were asked are a beginning of all,
/// and a lister without room is named by the last of them.
#[derive(Drop)]
struct Selects<'q> {
    question: &'q Question,
    plain: bool,
}

const TEXTS: [&str; 2] = ["test(/^[ot]/) & package(ap*)", "deps(=app) - test(=two)"];

impl AllocatingCall for Selects<'_> {
    fn answer(&mut self, alloc: Global) -> Result<String, Refusal> {
        let listings = answered(read_listings(alloc, LISTINGS), ReadError::Memory)?;
        let mut lister = FileLister::new(alloc, listings)?;
        match selected(alloc, self.question, self.plain, &TEXTS, &mut lister) {
            Ok(selection) => report(alloc, &selection),
            Err(error) => Err(refusal(lister.asked(), &error)),
        }
    }
}

fn refusal(asked: &[String], error: &SelectError) -> Refusal {
    let refused = match error {
        SelectError::Lister(id) => is_last_asked(asked, id.as_str()),
        SelectError::Memory => true,
        _ => false,
    };
    let is_beginning = asked.iter().zip(IDS).all(|(id, all)| id.as_str() == all);
    if refused && is_beginning && asked.len() <= IDS.len() {
        Refusal::Memory
    } else {
        Refusal::Other
    }
}

/// Whether the id is the last that was asked, or the next one, where there was no room to keep it.
fn is_last_asked(asked: &[String], id: &str) -> bool {
    let before = asked.len().saturating_sub(1);
    [before, asked.len()].iter().any(|place| IDS.get(*place).is_some_and(|wanted| *wanted == id))
}

/// A line for each test that is chosen.
fn report(alloc: Global, selection: &Selection) -> Result<String, Refusal> {
    let mut text = String::new(alloc);
    for (id, name) in selection.chosen() {
        writeln!(text, "{id} {name}")?;
    }
    Ok(text)
}

const REPORT: &str = "app one\napp::net get\nutil::wide lanes\n";

/// The record is afterwards what it was before.
#[test]
fn selections(rt: HostRuntime) {
    let question = &question_of(&rt, rt.alloc(), RECORD, CHOICE);
    let before = debugged(&rt, rt.alloc(), &question.record);
    for plain in [false, true] {
        refuse_in_turn(&rt, rt.alloc(), &mut Selects { question, plain }, REPORT);
    }
    assert_eq!(rt; debugged(&rt, rt.alloc(), &question.record), before);
}
