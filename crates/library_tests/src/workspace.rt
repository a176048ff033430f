//! Two members with a library and a test each, all of which are available under the choice; and what tests of
//! several parts make and assert.

use guppy_package_graph::{PackageGraph, PackageGraphError, PackageId};
use std::alloc::Global;
use std::fmt::{Debug, Display};
use std::process::Abort;
use test_select::{
    Feature, FeatureChoice, Label, LinkScope, PlatformTable, SelectError, Selection, TestLister,
    WorkspaceRecord, read_choice, read_record, read_table, select, select_plain,
};

/// The feature `full` of app switches util on, and `fast` its feature `simd`.
pub(crate) const RECORD: &[u8] = br#"{
    "packages": [
        {
            "id": "app", "name": "app", "version": "0.1.0", "optional": ["util"],
            "features": [
                {"name": "full", "enables": ["dep:util"]},
                {"name": "fast", "enables": ["util?/simd"]}
            ],
            "targets": [
                {"kind": "lib", "name": "app"},
                {"kind": "test", "name": "net", "required_features": ["full"]}
            ]
        },
        {
            "id": "util", "name": "util", "version": "0.1.0", "features": [{"name": "simd"}],
            "targets": [
                {"kind": "lib", "name": "util"},
                {"kind": "test", "name": "wide", "required_features": ["simd"]}
            ]
        }
    ],
    "links": [{
        "from": "app", "to": "util", "name": "util",
        "lines": [{"optional": true, "default_features": false}]
    }],
    "workspace": {"members": [
        {"package": "app", "path": "app"}, {"package": "util", "path": "util"}
    ]},
    "groups": [{"name": "slow", "filter": "test(/^t/)"}]
}"#;

pub(crate) const CHOICE: &[u8] = br#"{
    "standard": "none",
    "extras": [{"package": "app", "feature": "fast"}, {"package": "app", "feature": "full"}]
}"#;

pub(crate) const TABLE: &[u8] = br#"{"answers": {"cfg(unix)": true}}"#;

pub(crate) const LISTINGS: &[u8] = br#"{
    "app": ["one"], "app::net": ["get"], "util": ["two"], "util::wide": ["lanes"]
}"#;

pub(crate) const ACCOUNT: &[u8] = b"{\"rules\":[0,1,2,3,8,9]}";

/// The ids of the test binaries, in the order in which they are asked.
pub(crate) const IDS: [&str; 4] = ["app", "app::net", "util", "util::wide"];

/// A record under a choice.
pub(crate) struct Question {
    pub(crate) record: WorkspaceRecord,
    pub(crate) choice: FeatureChoice,
    pub(crate) table: PlatformTable,
}

// Written out, so that a function that lets one go takes one step.
impl Drop for Question {
    fn drop(self) {
        let Question {
            record: _,
            choice: _,
            table: _,
        } = self;
    }
}

/// The question of a record and a choice, over `TABLE`.
pub(crate) fn question_of(
    rt: &impl Abort,
    alloc: Global,
    record: &[u8],
    choice: &[u8],
) -> Question {
    Question {
        choice: read_choice(alloc, choice).expect(rt, "a choice"),
        table: read_table(alloc, TABLE).expect(rt, "a table"),
        record: read_record(alloc, record).expect(rt, "a record"),
    }
}

/// Selects over the links that are on, by the call that asks for each available binary where `plain`.
pub(crate) fn selected(
    alloc: Global,
    question: &Question,
    plain: bool,
    texts: &[&str],
    lister: &mut dyn TestLister,
) -> Result<Selection, SelectError> {
    let (record, choice, table) = (&question.record, &question.choice, &question.table);
    let scope = LinkScope::SwitchedOn;
    if plain {
        return select_plain(alloc, record, choice, table, scope, texts, lister);
    }
    select(alloc, record, choice, table, scope, texts, lister)
}

/// The graph of the packages of a record.
pub(crate) fn graph_of(rt: &impl Abort, alloc: Global, record: &[u8]) -> PackageGraph {
    let record = read_record(alloc, record).expect(rt, "a record");
    built_graph(alloc, record).expect(rt, "a graph")
}

/// The graph of a record's rows.
pub(crate) fn built_graph(
    alloc: Global,
    record: WorkspaceRecord,
) -> Result<PackageGraph, PackageGraphError> {
    let (packages, links, workspace) = (record.packages, record.links, record.workspace);
    PackageGraph::from_records(alloc, packages, links, workspace)
}

/// The id of a package.
pub(crate) fn id_of(rt: &impl Abort, alloc: Global, text: &str) -> PackageId {
    PackageId::new(String::from_str(alloc, text).expect(rt, "memory"))
}

/// The feature `simd` of util.
pub(crate) fn simd(rt: &impl Abort, alloc: Global) -> Feature {
    let package = String::from_str(alloc, "util").expect(rt, "memory");
    let label = Label::Named(String::from_str(alloc, "simd").expect(rt, "memory"));
    Feature { package, label }
}

/// What `Debug` prints of a value.
pub(crate) fn debugged<T: Debug>(rt: &impl Abort, alloc: Global, value: &T) -> String {
    format!(in alloc; "{value:?}").expect(rt, "memory")
}

/// Asserts what a value prints.
pub(crate) fn expect_printed<T: Display>(rt: &impl Abort, alloc: Global, value: &T, want: &str) {
    let printed = format!(in alloc; "{value}").expect(rt, "memory");
    assert_eq!(rt; printed.as_str(), want);
}
