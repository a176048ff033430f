//! The members of the workspace, found and listed by path and by name.

use crate::packages::graphs::told_sets::tell_set;
use guppy_package_graph::{PackageGraph, PackageMetadata, PackageQuery};
use guppy_package_parts::Error;
use row_program::{Answers, Row, RowFault};
use std::alloc::Global;

pub(crate) fn tell_members(
    alloc: Global,
    row: Row<'_>,
    graph: &PackageGraph,
    answers: &mut Answers,
) -> Result<(), RowFault> {
    let paths = row.texts(alloc, "paths")?;
    let names = row.texts(alloc, "names")?;
    tell_workspace(graph, answers);
    tell_paths(alloc, graph, &paths, answers);
    tell_names(alloc, graph, &names, answers);
    Ok(())
}

fn tell_workspace(graph: &PackageGraph, answers: &mut Answers) {
    let workspace = graph.workspace();
    answers.show("member_count", &workspace.member_count());
    answers.begin("member_ids");
    for id in workspace.member_ids() {
        answers.part(" ", id);
    }
    answers.begin("default_ids");
    for id in workspace.default_member_ids() {
        answers.part(" ", id);
    }
    answers.begin("by_path");
    for package in workspace.iter() {
        answers.part(" ", package.id());
    }
    answers.begin("paths_with_ids");
    for (path, package) in workspace.iter_by_path() {
        answers.part(" ", &path);
        answers.part("=", package.id());
    }
    answers.begin("names_with_ids");
    for (name, package) in workspace.iter_by_name() {
        answers.part(" ", &name);
        answers.part("=", package.id());
    }
}

/// The members at the paths: found one by one, and as a set and a query.
fn tell_paths(alloc: Global, graph: &PackageGraph, paths: &[&str], answers: &mut Answers) {
    let workspace = graph.workspace();
    for path in paths {
        match workspace.member_by_path(path) {
            Ok(package) => answers.show("at_path", package.id()),
            Err(error) => answers.show("at_path", &error),
        }
        answers.part(" ", &workspace.contains_path(path));
    }
    tell_list(
        "at_paths",
        workspace.members_by_paths(alloc, paths),
        answers,
    );
    let set = graph.resolve_workspace_paths(alloc, paths);
    tell_set(alloc, "set_at_paths", set, answers);
    let query = graph.query_workspace_paths(alloc, paths);
    tell_reach(alloc, "from_paths", query, answers);
}

/// The members with the names, likewise.
fn tell_names(alloc: Global, graph: &PackageGraph, names: &[&str], answers: &mut Answers) {
    let workspace = graph.workspace();
    for name in names {
        match workspace.member_by_name(name) {
            Ok(package) => answers.show("called", package.id()),
            Err(error) => answers.show("called", &error),
        }
        answers.part(" ", &workspace.contains_name(name));
        let packages = graph.resolve_package_name(alloc, name);
        tell_set(alloc, "packages_called", packages, answers);
    }
    let all = workspace.members_by_names(alloc, names);
    tell_list("all_called", all, answers);
    let set = graph.resolve_workspace_names(alloc, names);
    tell_set(alloc, "set_called", set, answers);
    let query = graph.query_workspace_names(alloc, names);
    tell_reach(alloc, "from_names", query, answers);
}

/// Tells what is reached by a query that was made, or why it was not.
fn tell_reach(
    alloc: Global,
    key: &'static str,
    query: Result<PackageQuery<'_>, Error>,
    answers: &mut Answers,
) {
    match query {
        Ok(query) => tell_set(alloc, key, query.resolve(alloc), answers),
        Err(error) => answers.show(key, &error),
    }
}

fn tell_list(
    key: &'static str,
    found: Result<Vec<PackageMetadata<'_>>, Error>,
    answers: &mut Answers,
) {
    match found {
        Ok(packages) => {
            answers.begin(key);
            for package in &packages {
                answers.part(" ", package.id());
            }
        }
        Err(error) => answers.show(key, &error),
    }
}
