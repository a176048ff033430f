//! Calls that rows reach by way of others.

use crate::graphs::packages::graphs::{FEWER, TRIANGLE, TURNED};
use crate::workspace::{debugged, graph_of, id_of};
use guppy_package_graph::{DependencyDirection, DependsCache};
use record_files::read_record;

const REVERSE: DependencyDirection = DependencyDirection::Reverse;

/// A cache and its copy are asked about a and c, and then the cache once more.
#[test]
fn copied_caches_answer_by_themselves(rt: HostRuntime) {
    let alloc = rt.alloc();
    let graph = graph_of(&rt, alloc, TRIANGLE);
    let (a, c) = (id_of(&rt, alloc, "a"), id_of(&rt, alloc, "c"));
    let mut cache = DependsCache::new(alloc, &graph).expect(&rt, "memory");
    let there = cache.depends_on(alloc, &a, &c).expect(&rt, "an answer");
    let mut copy = cache.copy(alloc).expect(&rt, "memory");
    let back = copy.depends_on(alloc, &c, &a).expect(&rt, "an answer");
    let again = cache.depends_on(alloc, &a, &c).expect(&rt, "an answer");
    assert!(rt; [there, back, again] == [true, false, true]);
}

/// A query from all packages prints as its copy does.
#[test]
fn copied_queries_are_printed(rt: HostRuntime) {
    let alloc = rt.alloc();
    let graph = graph_of(&rt, alloc, FEWER);
    let all = graph.resolve_all(alloc).expect(&rt, "memory");
    let query = all.to_package_query(alloc, REVERSE).expect(&rt, "memory");
    let copy = query.copy(alloc).expect(&rt, "memory");
    for text in &[debugged(&rt, alloc, &query), debugged(&rt, alloc, &copy)] {
        assert_eq!(rt;
            text.as_str(),
            r#"PackageQuery { direction: Reverse, initials: [PackageMetadata(PackageId { text: "a" }), PackageMetadata(PackageId { text: "b" })], .. }"#
        );
    }
}

/// First the links from the package, and then those to it.
#[test]
fn links_of_one_package_come_from_both_ends(rt: HostRuntime) {
    let graph = graph_of(&rt, rt.alloc(), TRIANGLE);
    let b = id_of(&rt, rt.alloc(), "b");
    let package = graph.metadata(&b).expect(&rt, "a package");
    let mut numbers = Vec::new(rt.alloc());
    for link in package.direct_links_directed(DependencyDirection::Forward) {
        assert!(rt; numbers.push(link.number()).is_ok());
    }
    for link in package.direct_links_directed(REVERSE) {
        assert!(rt; numbers.push(link.number()).is_ok());
    }
    assert!(rt; numbers.as_slice() == [2, 0].as_slice());
}

#[test]
fn graphs_are_compared_by_their_packages(rt: HostRuntime) {
    let graph = graph_of(&rt, rt.alloc(), TRIANGLE);
    let turned = graph_of(&rt, rt.alloc(), TURNED);
    assert!(rt; graph.same_packages(&turned));
    let fewer = graph_of(&rt, rt.alloc(), FEWER);
    assert!(rt; !graph.same_packages(&fewer) && !fewer.same_packages(&graph));
}

/// A workspace with all that it may say.
const FOLDERS: &[u8] = br#"{
    "packages": [{"id": "a", "name": "a", "version": "1.0.0"}],
    "links": [],
    "workspace": {
        "root": "/w", "target_directory": "/w/target", "build_directory": "/w/build",
        "metadata": {"x": 1}, "members": [{"package": "a", "path": "a"}], "default_members": ["a"]
    }
}"#;

#[test]
fn folders_of_a_workspace_are_lent(rt: HostRuntime) {
    let graph = graph_of(&rt, rt.alloc(), FOLDERS);
    let workspace = graph.workspace();
    assert_eq!(rt; workspace.root(), "/w");
    assert_eq!(rt; workspace.target_directory(), "/w/target");
    assert!(rt; workspace.build_directory() == Some("/w/build"));
    assert!(rt; workspace.metadata_table() == Some(r#"{"x":1}"#));
    assert_eq!(rt; workspace.member_count(), 1);
    assert_eq!(rt; workspace.default_members().len(), 1);
}

#[test]
fn folders_that_are_not_there_are_none(rt: HostRuntime) {
    let graph = graph_of(&rt, rt.alloc(), FEWER);
    let workspace = graph.workspace();
    assert!(rt; workspace.build_directory().is_none() && workspace.metadata_table().is_none());
    assert_eq!(rt; workspace.member_count(), 0);
}

#[test]
fn a_copied_row_is_equal(rt: HostRuntime) {
    let record = read_record(rt.alloc(), FOLDERS).expect(&rt, "a record");
    for row in &record.packages {
        let copy = row.copy(rt.alloc()).expect(&rt, "memory");
        assert!(rt; copy == *row);
    }
}
