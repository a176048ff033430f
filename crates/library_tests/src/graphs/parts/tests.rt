//! Parts of packages, links and features.

ghost use Rattle.std.specs.Prelude.{◌↔◌, ◌<◌, All, IsTrue};

use crate::workspace::expect_printed;
use guppy_package_parts::{
    DependencyDirection, DependencyKind, EnabledTernary, Error, FeatureBuildStage,
    FeatureGraphWarning, LineChoice, LineKind, LineRow, LinkRow, PackageId, Platform, PlatformSpec,
    PlatformStatus, SortedSet,
};
use std::alloc::Global;
use std::process::Abort;

/// A text in memory of its own.
fn text(rt: &impl Abort, alloc: Global, text: &str) -> String {
    String::from_str(alloc, text).expect(rt, "memory")
}

/// A link of three lines.
fn link(rt: &impl Abort, alloc: Global) -> LinkRow {
    let mut lines = Vec::new(alloc);
    for spec in ["one", "two", "three"] {
        let line = LineRow {
            kind: LineKind::Normal,
            optional: false,
            default_features: true,
            features: Vec::new(alloc),
            spec: Some(text(rt, alloc, spec)),
        };
        assert!(rt; lines.push(line).is_ok());
    }
    LinkRow {
        from: text(rt, alloc, "a"),
        to: text(rt, alloc, "b"),
        name: text(rt, alloc, "b"),
        requirement: text(rt, alloc, "*"),
        lines,
        registry: None,
        path: None,
    }
}

// The platform that one spec names, and that knows of no other spec.
#[derive(Clone, Copy, Debug)]
struct OneSpec(&'static str);

impl Platform for OneSpec {
    ghost use Rattle.std.specs.Prelude.{None, Some, true, if◌then◌else◌};
    ghost use Rattle.std.specs.Str.{bytes_eq};

    ghost answers = { λ p spec. if bytes_eq spec p.0.now then Some true else None };

    fn answer(&self, spec: &str) -> Option<bool> {
        if spec == self.0 { Some(true) } else { None }
    }
}

#[test]
fn copies_ids_and_warnings(rt: HostRuntime) {
    let alloc = rt.alloc();
    let id = PackageId::new(text(&rt, alloc, "a 1.0.0"));
    assert_eq!(rt; id.repr(), "a 1.0.0");
    assert!(rt; id.copy(alloc).expect(&rt, "memory") == id);
    expect_printed(&rt, alloc, &id, "a 1.0.0");
    let stage = FeatureBuildStage::AddDependencyEdges {
        package_id: id.copy(alloc).expect(&rt, "memory"),
        dep_name: text(&rt, alloc, "b"),
    };
    assert!(rt; stage.copy(alloc).expect(&rt, "memory") == stage);
    let warning = FeatureGraphWarning::MissingFeature {
        stage,
        package_id: id,
        feature_name: text(&rt, alloc, "x"),
    };
    assert!(rt; warning.copy(alloc).expect(&rt, "memory") == warning);
}

#[test]
fn orders_sets_of_texts(rt: HostRuntime) {
    let alloc = rt.alloc();
    let mut names = Vec::new(alloc);
    for name in ["b", "a", "b", "ab"] {
        assert!(rt; names.push(text(&rt, alloc, name)).is_ok());
    }
    let set = SortedSet::new(names);
    expect_printed(&rt, alloc, &set, "a, ab, b");
    assert!(rt; set.contains(&text(&rt, alloc, "ab")));
    assert!(rt; !set.contains(&text(&rt, alloc, "c")));
    let names: &[String] = &set;
    assert_eq!(rt; names.len(), 3, "a set is read as a slice");
    let none: SortedSet<String> = SortedSet::new(Vec::new(alloc));
    expect_printed(&rt, alloc, &none, "");
}

#[test]
fn compares_sets_by_their_elements(rt: HostRuntime) {
    let alloc = rt.alloc();
    let set = SortedSet::new(Vec::from_slice(alloc, &[2_usize, 1, 2]).expect(&rt, "memory"));
    let later = SortedSet::new(Vec::from_slice(alloc, &[1_usize, 3]).expect(&rt, "memory"));
    assert!(rt; set.copy(alloc).expect(&rt, "memory") == set);
    assert!(rt; set < later && later != set);
}

/// Whether there is a line at each of the places.
fn are_below(places: &[usize], count: usize) -> bool
    ensures { IsTrue result ↔ All (λ i. i < count) places.now }
{
    places.iter().all(|place| *place < count)
}

#[test]
fn copies_some_lines(rt: HostRuntime) {
    let alloc = rt.alloc();
    let row = link(&rt, alloc);
    let places = [0, 2];
    let count = row.lines.len();
    if are_below(&places, count) {
        let some = row.copy_some(alloc, &places).expect(&rt, "memory");
        assert_eq!(rt; some.lines.len(), 2);
        assert!(rt; some.lines.first() == row.lines.first());
        assert!(rt; some.lines.last() == row.lines.last());
    }
    assert_eq!(rt; count, 3);
    let none = row.copy_some(alloc, &[]).expect(&rt, "memory");
    assert!(rt; none.lines.is_empty());
}

#[test]
fn joins_no_lines(rt: HostRuntime) {
    let alloc = rt.alloc();
    let rows = [link(&rt, alloc), link(&rt, alloc)];
    let nothing = PlatformStatus::over(&rows, &[]);
    assert!(rt; nothing.is_never() && !nothing.is_present() && !nothing.is_always());
    let mut platforms = Vec::new(alloc);
    assert!(rt; platforms.push(OneSpec("one")).is_ok());
    let platforms = PlatformSpec::platforms(platforms);
    assert!(rt; nothing.enabled_on(&platforms) == EnabledTernary::Disabled);
    let copy = platforms.copy(alloc).expect(&rt, "memory");
    let copied = format!(in alloc; "{copy:?}").expect(&rt, "memory");
    let printed = format!(in alloc; "{platforms:?}").expect(&rt, "memory");
    assert_eq!(rt; copied, printed);
}

/// Of the lines that are named, one of which is not there, none is a dev line.
#[test]
fn joins_chosen_lines(rt: HostRuntime) {
    let alloc = rt.alloc();
    let rows = [link(&rt, alloc)];
    let choice = LineChoice {
        kind: LineKind::Normal,
        required: true,
        optional: true,
    };
    let lines = [(0, 2), (1, 0), (0, 0)];
    let chosen = PlatformStatus::over_chosen(&rows, &lines, choice);
    let printed = format!(in alloc; "{chosen:?}").expect(&rt, "memory");
    assert!(rt; chosen.is_present() && !chosen.is_always() && !printed.is_empty());
    let kind = LineKind::Dev;
    let none = PlatformStatus::over_chosen(&rows, &lines, LineChoice { kind, ..choice });
    assert!(rt; none.is_never());
}

#[test]
fn names_kinds_and_directions(rt: HostRuntime) {
    let mut names = String::new(rt.alloc());
    for kind in DependencyKind::VALUES {
        assert!(rt; write!(names, "{kind} ").is_ok());
    }
    assert_eq!(rt; names.as_str(), "normal dev build ");
    let forward = DependencyDirection::Forward;
    assert!(rt; forward.opposite() == DependencyDirection::Reverse);
    assert!(rt; EnabledTernary::Unknown & EnabledTernary::Enabled == EnabledTernary::Unknown);
    assert!(rt; EnabledTernary::Unknown | EnabledTernary::Enabled == EnabledTernary::Enabled);
    assert!(rt; !EnabledTernary::Unknown.is_known());
}

const ERRORS: [(Error, &str); 7] = [
    (Error::UnknownPackageId, "unknown package ID"),
    (Error::UnknownFeatureId, "unknown feature ID"),
    (Error::UnknownWorkspacePath, "unknown workspace path"),
    (Error::UnknownWorkspaceName, "unknown workspace name"),
    (
        Error::PackageGraphInternalError,
        "internal error in a package graph",
    ),
    (
        Error::FeatureGraphInternalError,
        "internal error in a feature graph",
    ),
    (Error::Memory, "out of memory"),
];

#[test]
fn prints_errors(rt: HostRuntime) {
    for (error, want) in ERRORS {
        expect_printed(&rt, rt.alloc(), &error, want);
    }
}
