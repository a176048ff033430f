//! Filters that are parsed, compiled and asked.

use crate::refusals::turns::{AllocatingCall, Refusal, answered, refuse_in_turn};
use crate::workspace::{RECORD, debugged, graph_of};
use guppy_package_graph::{PackageGraph, PackageId};
use nextest_filtering::errors::{FiltersetError, ParseExprError};
use nextest_filtering::{
    BinaryQuery, BuildPlatform, CompiledExpr, EvalContext, Filterset, FiltersetKind, KnownGroups,
    ParseContext, ParsedExpr, RustBinaryId, RustTestBinaryKind, TestCaseName, TestQuery,
};
use std::alloc::{AllocError, Global};

const FILTER: &str = r"test(/^o[a-z]+\d?$/) & (package(ap*) + deps(=app) - kind(bench))";

/// Parses the filter, and tells it as it is printed.
#[derive(Drop)]
struct Parses;

impl AllocatingCall for Parses {
    fn answer(&mut self, alloc: Global) -> Result<String, Refusal> {
        let parsed = answered(ParsedExpr::parse(alloc, FILTER), ParseExprError::Memory)?;
        Ok(format!(in alloc; "{parsed}")?)
    }
}

#[test]
fn parse(rt: HostRuntime) {
    let printed = "test(/^o[a-z]+\\d?$/) & (package(ap*) + deps(=app) - kind(bench))";
    refuse_in_turn(&rt, rt.alloc(), &mut Parses, printed);
}

/// Makes a context of all packages, and tells how many it knows.
#[derive(Drop)]
struct Knows<'g> {
    graph: &'g PackageGraph,
}

impl AllocatingCall for Knows<'_> {
    fn answer(&mut self, alloc: Global) -> Result<String, Refusal> {
        let all = self.graph.resolve_all(alloc)?;
        ParseContext::with_packages(alloc, self.graph, &all)?;
        Ok(format!(in alloc; "{}", all.len())?)
    }
}

#[test]
fn with_packages(rt: HostRuntime) {
    let graph = &graph_of(&rt, rt.alloc(), RECORD);
    refuse_in_turn(&rt, rt.alloc(), &mut Knows { graph }, "2");
}

/// Compiles the filter.
#[derive(Drop)]
struct Compiles<'g, 'c> {
    cx: &'c ParseContext<'g>,
}

impl AllocatingCall for Compiles<'_, '_> {
    fn answer(&mut self, alloc: Global) -> Result<String, Refusal> {
        let compiled = compile_filter(alloc, self.cx)?;
        Ok(String::from_str(alloc, compiled.filter.input.as_str())?)
    }
}

struct Compiled {
    filter: Filterset,
}

// Written out, so that a function that lets one go takes one step.
impl Drop for Compiled {
    fn drop(self) {
        let Compiled { filter } = self;
        drop(filter);
    }
}

/// What `FILTER` is compiled to, or how that was refused.
fn compile_filter(alloc: Global, cx: &ParseContext<'_>) -> Result<Compiled, Refusal> {
    let input = String::from_str(alloc, FILTER)?;
    let (kind, groups) = (FiltersetKind::OverrideFilter, KnownGroups::Unavailable);
    match Filterset::parse(alloc, input, cx, kind, &groups) {
        Ok(filter) => Ok(Compiled { filter }),
        Err(FiltersetError::Memory) => Err(Refusal::Memory),
        Err(_) => Err(Refusal::Other),
    }
}

#[test]
fn filterset(rt: HostRuntime) {
    let graph = graph_of(&rt, rt.alloc(), RECORD);
    let cx = &ParseContext::new(rt.alloc(), &graph).expect(&rt, "memory");
    refuse_in_turn(&rt, rt.alloc(), &mut Compiles { cx }, FILTER);
}

/// The parts of a test of app's library.
#[derive(Drop)]
pub(crate) struct Parts {
    package_id: PackageId,
    kind: RustTestBinaryKind,
    binary_id: RustBinaryId,
    pub(crate) test_name: TestCaseName,
}

impl Parts {
    pub(crate) fn new(alloc: Global, test: &str) -> Result<Parts, AllocError> {
        let kind = RustTestBinaryKind::new(String::from_str(alloc, "lib")?);
        let binary_id = RustBinaryId::from_parts(alloc, "app", &kind, "app")?;
        let test_name = TestCaseName::new(String::from_str(alloc, test)?);
        Ok(Parts {
            package_id: PackageId::new(String::from_str(alloc, "app")?),
            kind,
            binary_id,
            test_name,
        })
    }

    pub(crate) fn query(&self) -> BinaryQuery<'_> {
        BinaryQuery {
            package_id: &self.package_id,
            binary_id: &self.binary_id,
            binary_name: "app",
            kind: &self.kind,
            platform: BuildPlatform::Target,
        }
    }
}

/// Asks the filter about the binary and about the test.
#[derive(Drop)]
struct Asks<'f, 'c> {
    filter: &'f CompiledExpr,
    parts: &'f Parts,
    cx: &'c EvalContext<'c>,
}

impl AllocatingCall for Asks<'_, '_> {
    fn answer(&mut self, alloc: Global) -> Result<String, Refusal> {
        let binary_query = self.parts.query();
        let known = self.filter.matches_binary(alloc, &binary_query, self.cx)?;
        let test_name = &self.parts.test_name;
        let query = TestQuery {
            binary_query,
            test_name,
        };
        if self.filter.has_group_matchers() {
            return Err(Refusal::Other);
        }
        let holds = self.filter.matches_test(alloc, &query, self.cx)?;
        Ok(format!(in alloc; "{known:?} {holds}")?)
    }
}

/// The trees are afterwards what they were before.
#[test]
fn evaluators(rt: HostRuntime) {
    let graph = graph_of(&rt, rt.alloc(), RECORD);
    let cx = ParseContext::new(rt.alloc(), &graph).expect(&rt, "memory");
    let compiled = compile_filter(rt.alloc(), &cx).expect(&rt, "a filter");
    let parts = &Parts::new(rt.alloc(), "one1").expect(&rt, "memory");
    let before = debugged(&rt, rt.alloc(), &compiled.filter);
    let filter = &compiled.filter.compiled;
    let all = CompiledExpr::ALL;
    let cx = &EvalContext {
        default_filter: &all,
    };
    let mut run = Asks { filter, parts, cx };
    refuse_in_turn(&rt, rt.alloc(), &mut run, "None true");
    let after = debugged(&rt, rt.alloc(), &compiled.filter);
    assert_eq!(rt; after.as_str(), before.as_str());
}
