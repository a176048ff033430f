//! Listers that fail, and what a lister is told.

ghost use Rattle.std.specs.Prelude.{◌≡◌, ◌<◌, ◌++◌, ◌∷◌, [], ◌⊎◌, OnOk, OnErr, IfOk, codes};
ghost use Rattle.list_facts.specs.Texts.{texts};
ghost use Rattle.nextest_binaries.specs.Listers.{largest};

use crate::workspace::{CHOICE, IDS, RECORD, question_of, selected};
use std::alloc::Global;
use std::process::Abort;
use test_select::{BinaryInfo, ListFault, Listing, SelectError, Selection, TestLister};

/// Fails at one call, holds one test for each binary, and writes down all that it is told of it.
#[derive(Drop)]
struct FailingLister {
    alloc: Global,
    asked: Vec<String>,
    failures: u64,
    fails_at: usize,
    told: String,
}

impl TestLister for FailingLister {
    ghost use Rattle.std.specs.Prelude.{◌∷◌, [], Some, codes};
    ghost use Rattle.list_facts.specs.Texts.{texts};

    ghost shown = { λ s. record {
      asked = texts s.asked.items;
      failures = s.failures;
      listing_of = λ _. Some (codes "t" ∷ []);
    } };

    fn list(&mut self, binary: &BinaryInfo<'_>) -> Result<Listing, ListFault> {
        let (alloc, failures, fails_at) = (self.alloc, self.failures, self.fails_at);
        let (id, package_id, name) = (binary.id, binary.package_id, binary.name);
        let _ = writeln!(
            self.told,
            "{id}, {package_id}, {name}, {:?}, {}",
            binary.kind, binary.platform
        );
        let answer = one_test(alloc, &mut self.asked, failures, fails_at, id);
        if answer.is_err() {
            self.failures = failures.saturating_add(1);
        }
        answer
    }
}

fn one_test(
    alloc: Global,
    asked: &mut Vec<String>,
    failures: u64,
    fails_at: usize,
    id: &str,
) -> Result<Listing, ListFault>
    ensures asks { OnOk result (texts asked.new.items ≡ texts asked.old.items ++ id.now ∷ []) }
    ensures answers { IfOk result (λ v. (failures < largest) × (texts v.items ≡ codes "t" ∷ [])) }
    ensures fails { OnErr result ((texts asked.new.items ≡ texts asked.old.items)
        ⊎ (texts asked.new.items ≡ texts asked.old.items ++ id.now ∷ [])) }
{
    let place = asked.len();
    asked.push(String::from_str(alloc, id)?)?;
    if failures == u64::MAX || place == fails_at {
        return Err(ListFault);
    }
    let mut names = Vec::new(alloc);
    names.push(String::from_str(alloc, "t")?)?;
    Ok(names)
}

/// Asserts how many tests a selection has, or what its error says.
fn expect_text(rt: &impl Abort, alloc: Global, answer: Result<Selection, SelectError>, want: &str) {
    let text = match answer {
        Ok(selection) => format!(in alloc; "{} chosen", selection.chosen().len()),
        Err(error) => format!(in alloc; "{error}"),
    };
    let text = text.expect(rt, "memory");
    assert_eq!(rt; text.as_str(), want);
}

/// At which call the lister fails, its count before, how the selection ends, how many ids were asked,
/// and the count after.
const ENDS: [(usize, u64, &str, usize, u64); 9] = [
    (0, 0, "lister: app", 1, 1),
    (1, 5, "lister: app::net", 2, 6),
    (2, 0, "lister: util", 3, 1),
    (3, u64::MAX - 1, "lister: util::wide", 4, u64::MAX),
    (0, u64::MAX - 1, "lister: app", 1, u64::MAX),
    (4, 5, "4 chosen", 4, 5),
    (4, u64::MAX - 1, "4 chosen", 4, u64::MAX - 1),
    (0, u64::MAX, "lister: app", 1, u64::MAX),
    (4, u64::MAX, "lister: app", 1, u64::MAX),
];

/// The ids that are asked are the first of the workspace's.
#[test]
fn a_lister_that_fails(rt: HostRuntime) {
    let alloc = rt.alloc();
    let question = question_of(&rt, alloc, RECORD, CHOICE);
    for (fails_at, failures, end, asked, after) in ENDS {
        for plain in [false, true] {
            let mut lister = FailingLister {
                alloc,
                asked: Vec::new(alloc),
                failures,
                fails_at,
                told: String::new(alloc),
            };
            let answer = selected(alloc, &question, plain, &[], &mut lister);
            expect_text(&rt, alloc, answer, end);
            assert_eq!(rt; lister.asked.len(), asked);
            for (id, wanted) in lister.asked.iter().zip(IDS) {
                assert_eq!(rt; id.as_str(), wanted);
            }
            assert_eq!(rt; lister.failures, after);
        }
    }
}

/// One target of each kind: a procedural macro, of which its tests run on the host, and a test binary
/// among them.
const KINDS: &[u8] = br#"{
    "packages": [{
        "id": "p 1.0.0", "name": "p-q", "version": "1.0.0",
        "targets": [
            {"kind": "proc-macro", "name": "p_q"},
            {"kind": "test", "name": "t"},
            {"kind": "bench", "name": "b"},
            {"kind": "bin", "name": "c"},
            {"kind": "example", "name": "e"}
        ]
    }],
    "workspace": {"members": [{"package": "p 1.0.0", "path": "p"}]}
}"#;

#[test]
fn what_a_lister_is_told(rt: HostRuntime) {
    let told = "p-q, p 1.0.0, p_q, ProcMacro, host\n\
        p-q::bench/b, p 1.0.0, b, Bench, target\n\
        p-q::bin/c, p 1.0.0, c, Bin, target\n\
        p-q::example/e, p 1.0.0, e, Example, target\n\
        p-q::t, p 1.0.0, t, Test, target\n";
    let alloc = rt.alloc();
    let question = question_of(&rt, alloc, KINDS, b"{}");
    for plain in [false, true] {
        let mut lister = FailingLister {
            alloc,
            asked: Vec::new(alloc),
            failures: 0,
            fails_at: 5,
            told: String::new(alloc),
        };
        let answer = selected(alloc, &question, plain, &[], &mut lister);
        assert!(rt; answer.is_ok());
        assert_eq!(rt; lister.told.as_str(), told);
    }
}

/// Has no room for any id, and so no listing.
#[derive(Drop)]
struct FullLister {
    failures: u64,
}

impl TestLister for FullLister {
    ghost use Rattle.std.specs.Prelude.{[], None};

    ghost shown = { λ s. record { asked = []; failures = s.failures; listing_of = λ _. None } };

    fn list(&mut self, _: &BinaryInfo<'_>) -> Result<Listing, ListFault> {
        self.failures = self.failures.saturating_add(1);
        Err(ListFault)
    }
}

#[test]
fn a_lister_without_room(rt: HostRuntime) {
    let alloc = rt.alloc();
    let question = question_of(&rt, alloc, RECORD, CHOICE);
    for (before, after) in [(0, 1), (u64::MAX - 1, u64::MAX), (u64::MAX, u64::MAX)] {
        for plain in [false, true] {
            let mut lister = FullLister { failures: before };
            let answer = selected(alloc, &question, plain, &[], &mut lister);
            expect_text(&rt, alloc, answer, "lister: app");
            assert_eq!(rt; lister.failures, after);
        }
    }
}
