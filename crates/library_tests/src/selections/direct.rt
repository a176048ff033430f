//! Calls that the program makes by way of others alone, with memory enough: reasons, binaries to ask, groups
//! of tests, how often rules are looked at, and copies.

use crate::refusals::filters::Parts;
use crate::workspace::{CHOICE, LISTINGS, RECORD, debugged, question_of};
use nextest_filtering::errors::{GlobConstructError, GlobError};
use nextest_filtering::{
    CompiledExpr, EvalContext, FiltersetLeaf, GenericGlob, GroupLookup, NameMatcher, ParsedExpr,
    ParsedLeaf, SourceSpan, TestQuery,
};
use std::alloc::Global;
use std::process::Abort;
use test_select::{
    FileLister, GroupTable, LinkScope, RecordError, RecordFilters, WorkspaceRecord, account,
    binaries_to_ask, declared_graph, filter_context, read_listings, record_filters, rules, why,
};

#[test]
fn a_reason(rt: HostRuntime) {
    let question = question_of(&rt, rt.alloc(), RECORD, CHOICE);
    let (record, choice, table) = (&question.record, &question.choice, &question.table);
    let listings = read_listings(rt.alloc(), LISTINGS).expect(&rt, "listings");
    let mut lister = FileLister::new(rt.alloc(), listings).expect(&rt, "a lister");
    let (scope, texts) = (LinkScope::SwitchedOn, ["none()", "test(one)"]);
    let (id, test) = ("app", Some("one"));
    let reason = why(
        rt.alloc(),
        record,
        choice,
        table,
        scope,
        &texts,
        id,
        test,
        &mut lister,
    );
    let reason = reason.expect(&rt, "a reason");
    let printed = format!(in rt.alloc(); "{reason}").expect(&rt, "memory");
    assert_eq!(rt; printed.as_str(), "chosen by filter 1");
    assert_eq!(rt; lister.asked().len(), 1);
}

#[test]
fn binaries_before_they_are_built(rt: HostRuntime) {
    let question = question_of(&rt, rt.alloc(), RECORD, CHOICE);
    let (record, choice, table) = (&question.record, &question.choice, &question.table);
    let (scope, texts) = (LinkScope::SwitchedOn, ["package(=app) and test(one)"]);
    let ids = binaries_to_ask(rt.alloc(), record, choice, table, scope, &texts);
    let ids = ids.expect(&rt, "ids");
    assert!(rt;
        ids.iter()
            .map(String::as_str)
            .eq(["app", "app::net"].iter().copied())
    );
}

/// The filters of a record, compiled over its own graph.
fn filters_of(alloc: Global, record: &WorkspaceRecord) -> Result<RecordFilters, RecordError> {
    let graph = declared_graph(alloc, record)?;
    let cx = filter_context(alloc, &graph, &graph, &[])?;
    record_filters(alloc, record, &cx)
}

/// Asserts in which group a test of app's library is, also by a filter that names the group.
fn expect_group(rt: &impl Abort, alloc: Global, table: &GroupTable<'_>, test: &str, group: &str) {
    let parts = Parts::new(alloc, test).expect(rt, "memory");
    let query = TestQuery {
        binary_query: parts.query(),
        test_name: &parts.test_name,
    };
    let found = table.group_of(&query).expect(rt, "memory");
    assert_eq!(rt; found, group);
    let slow = group == "slow";
    let value = String::from_str(alloc, "slow").expect(rt, "memory");
    let matcher = NameMatcher::Equal {
        value,
        implicit: false,
    };
    let is_member = table.is_member_test(&query, &matcher).expect(rt, "memory");
    assert_eq!(rt; is_member, slow);
    let leaf = FiltersetLeaf::Group(matcher, SourceSpan::from((6, 5)));
    let filter = CompiledExpr::Set(leaf);
    let all = CompiledExpr::ALL;
    let cx = EvalContext {
        default_filter: &all,
    };
    let holds = filter.matches_test_with_groups(alloc, &query, &cx, table);
    assert_eq!(rt; holds.expect(rt, "memory"), slow);
}

#[test]
fn groups(rt: HostRuntime) {
    let question = question_of(&rt, rt.alloc(), RECORD, CHOICE);
    let filters = filters_of(rt.alloc(), &question.record).expect(&rt, "filters");
    let table = GroupTable::new(rt.alloc(), &filters);
    expect_group(&rt, rt.alloc(), &table, "two", "slow");
    expect_group(&rt, rt.alloc(), &table, "one", "@global");
}

/// Seven rules, four of which make the account.
const LOOKED_AT: &[u8] = br#"{
    "packages": [
        {
            "id": "a", "name": "a", "version": "1.0.0",
            "features": [{"name": "x", "enables": ["y"]}, {"name": "y"}],
            "targets": [{"kind": "lib", "name": "a", "required_features": ["y"]}]
        },
        {
            "id": "b", "name": "b", "version": "1.0.0",
            "targets": [{"kind": "lib", "name": "b"}]
        }
    ],
    "links": [{"from": "a", "to": "b", "name": "b", "lines": [{"default_features": false}]}],
    "workspace": {"members": [{"package": "a", "path": "a"}, {"package": "b", "path": "b"}]}
}"#;

#[test]
fn looks(rt: HostRuntime) {
    let choice = br#"{"standard": "none", "extras": [{"package": "a", "feature": "x"}]}"#;
    let question = question_of(&rt, rt.alloc(), LOOKED_AT, choice);
    let (record, choice, table) = (&question.record, &question.choice, &question.table);
    let account = account(rt.alloc(), record, choice, table).expect(&rt, "an account");
    assert_eq!(rt;
        debugged(&rt, rt.alloc(), &account.rules).as_str(),
        "[0, 1, 2, 5]"
    );
    assert!(rt; (7..=35).contains(&account.looks));
}

#[test]
fn copies_of_rules(rt: HostRuntime) {
    let question = question_of(&rt, rt.alloc(), RECORD, CHOICE);
    let (record, choice, table) = (&question.record, &question.choice, &question.table);
    let rules = rules(rt.alloc(), record, choice, table).expect(&rt, "memory");
    assert_eq!(rt; rules.len(), 11);
    for rule in &rules {
        let copy = rule.copy(rt.alloc()).expect(&rt, "memory");
        let premises = rule.premises.copy(rt.alloc()).expect(&rt, "memory");
        assert!(rt; copy == *rule && premises == rule.premises);
    }
}

#[test]
fn copies_of_leaves(rt: HostRuntime) {
    for text in ["package(a*)", "test(/o+/)", "platform(host)", "default()"] {
        let parsed = ParsedExpr::parse(rt.alloc(), text).expect(&rt, "a filter");
        match &parsed {
            ParsedExpr::Set(leaf) => {
                let copy: ParsedLeaf = leaf.copy(rt.alloc()).expect(&rt, "memory");
                assert!(rt; copy == *leaf);
            }
            _ => assert!(rt; false, "a leaf"),
        }
    }
}

#[test]
fn copies_of_compiled_filters(rt: HostRuntime) {
    let value = String::from_str(rt.alloc(), "one").expect(&rt, "memory");
    let matcher = NameMatcher::Equal {
        value,
        implicit: false,
    };
    let leaf = FiltersetLeaf::Test(matcher, SourceSpan::from((5, 4)));
    assert!(rt; leaf.copy(rt.alloc()).expect(&rt, "memory") == leaf);
    let filter = CompiledExpr::Set(leaf);
    assert!(rt; filter.copy(rt.alloc()).expect(&rt, "memory") == filter);
}

#[test]
fn copies_of_globs(rt: HostRuntime) {
    let text = String::from_str(rt.alloc(), "a[b-d]*").expect(&rt, "memory");
    let glob = GenericGlob::new(rt.alloc(), text).expect(&rt, "memory");
    let glob = glob.expect(&rt, "a glob");
    assert!(rt; glob.copy(rt.alloc()).expect(&rt, "memory") == glob);
    let error = GlobConstructError::InvalidGlob(GlobError::UnclosedClass);
    assert!(rt; error.copy(rt.alloc()).expect(&rt, "memory") == error);
}
