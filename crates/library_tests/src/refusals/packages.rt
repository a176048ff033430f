//! Package graphs, their sets and their resolves.

use crate::graphs::packages::visitors::Follows;
use crate::refusals::turns::{AllocatingCall, Refusal, answered, refuse_in_turn};
use crate::workspace::{CHOICE, RECORD, built_graph, debugged, graph_of, id_of, question_of};
use guppy_package_graph::{
    DependencyDirection, Error, PackageGraph, PackageGraphError, PackageId, PackageMetadata,
    PackageSet,
};
use std::alloc::{AllocError, Global};
use test_select::WorkspaceRecord;

const FORWARD: DependencyDirection = DependencyDirection::Forward;

/// The ids of a set, dependents first, with a space after each.
fn ids_text(alloc: Global, set: &PackageSet<'_>) -> Result<String, Refusal> {
    let mut text = String::new(alloc);
    for id in set.package_ids(FORWARD) {
        write!(text, "{} ", id.repr())?;
    }
    Ok(text)
}

/// Builds the graph of a copy of the record's rows.
#[derive(Drop)]
struct Builds<'r> {
    record: &'r WorkspaceRecord,
}

impl AllocatingCall for Builds<'_> {
    fn answer(&mut self, alloc: Global) -> Result<String, Refusal> {
        let copy = self.record.copy(alloc)?;
        let graph = answered(built_graph(alloc, copy), PackageGraphError::Memory)?;
        let all = graph.resolve_all(alloc)?;
        ids_text(alloc, &all)
    }
}

/// The record is afterwards what it was before.
#[test]
fn from_records(rt: HostRuntime) {
    let question = question_of(&rt, rt.alloc(), RECORD, CHOICE);
    let record = &question.record;
    let before = debugged(&rt, rt.alloc(), record);
    refuse_in_turn(&rt, rt.alloc(), &mut Builds { record }, "app util ");
    assert_eq!(rt; debugged(&rt, rt.alloc(), record), before);
}

/// What is made of two sets, one of all packages and one of util. The sets themselves are told last.
#[derive(Clone, Copy)]
enum Made {
    Union,
    Intersection,
    Difference,
    SymmetricDifference,
    Filter,
    Links,
    Roots,
    First,
    Second,
}

#[derive(Drop)]
struct Makes<'g, 'h, 's, 't> {
    made: Made,
    all: &'s PackageSet<'g>,
    one: &'t PackageSet<'h>,
}

impl AllocatingCall for Makes<'_, '_, '_, '_> {
    fn answer(&mut self, alloc: Global) -> Result<String, Refusal> {
        let (all, one) = (self.all, self.one);
        if !all.same_packages(one) {
            return Err(Refusal::Other);
        }
        let set = match self.made {
            Made::Union => all.union(alloc, one),
            Made::Intersection => all.intersection(alloc, one),
            Made::Difference => all.difference(alloc, one),
            Made::SymmetricDifference => all.symmetric_difference(alloc, one),
            Made::Filter => all.filter(alloc, FORWARD, |package: PackageMetadata<'_>| -> bool {
                package.id().repr() == "app"
            }),
            Made::Links => return length_told(alloc, all.links(alloc)),
            Made::Roots => return length_told(alloc, all.root_ids(alloc, FORWARD)),
            Made::First => return ids_text(alloc, all),
            Made::Second => return ids_text(alloc, one),
        };
        ids_text(alloc, &set?)
    }
}

/// How long a list is.
fn length_told<T: Drop>(
    alloc: Global,
    list: Result<Vec<T>, AllocError>,
) -> Result<String, Refusal> {
    let list = list?;
    Ok(format!(in alloc; "{}", list.len())?)
}

const SETS: [(Made, &str); 9] = [
    (Made::Union, "app util "),
    (Made::Intersection, "util "),
    (Made::Difference, "app "),
    (Made::SymmetricDifference, "app "),
    (Made::Filter, "app "),
    (Made::Links, "1"),
    (Made::Roots, "1"),
    (Made::First, "app util "),
    (Made::Second, "util "),
];

#[test]
fn sets(rt: HostRuntime) {
    let graph = graph_of(&rt, rt.alloc(), RECORD);
    let util = id_of(&rt, rt.alloc(), "util");
    let all = &graph.resolve_all(rt.alloc()).expect(&rt, "memory");
    let one = &graph.resolve_ids(rt.alloc(), &[&util]).expect(&rt, "a set");
    for (made, wanted) in SETS {
        refuse_in_turn(&rt, rt.alloc(), &mut Makes { made, all, one }, wanted);
    }
}

/// Resolves by a visitor that follows all links. Where that is refused, it was shown none.
#[derive(Drop)]
struct Resolves<'g> {
    graph: &'g PackageGraph,
    start: &'g PackageId,
}

impl AllocatingCall for Resolves<'_> {
    fn answer(&mut self, alloc: Global) -> Result<String, Refusal> {
        let mut visitor = Follows {
            left: usize::MAX,
            shown: 0,
        };
        let query = answered(
            self.graph.query_forward(alloc, &[self.start]),
            Error::Memory,
        )?;
        match query.resolve_with(alloc, &mut visitor) {
            Ok(set) => ids_text(alloc, &set),
            Err(_) if visitor.shown == 0 => Err(Refusal::Memory),
            Err(_) => Err(Refusal::Other),
        }
    }
}

#[test]
fn resolve_with(rt: HostRuntime) {
    let graph = &graph_of(&rt, rt.alloc(), RECORD);
    let start = &id_of(&rt, rt.alloc(), "app");
    refuse_in_turn(&rt, rt.alloc(), &mut Resolves { graph, start }, "app util ");
}
