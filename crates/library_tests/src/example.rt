//! A lister of one's own, and a selection over it: the example of `README.md`.

ghost use Rattle.std.specs.Prelude.{◌≡◌, ◌<◌, ◌++◌, ◌∷◌, [], ◌⊎◌, OnOk, OnErr, IfOk, codes};
ghost use Rattle.list_facts.specs.Texts.{texts};
ghost use Rattle.nextest_binaries.specs.Listers.{largest};

use crate::workspace::{CHOICE, RECORD, question_of};
use std::alloc::Global;
use test_select::{BinaryInfo, LinkScope, ListFault, Listing, TestLister, select, write_report};

/// Knows one test of each binary, `starts`.
#[derive(Drop)]
struct OneTest {
    alloc: Global,
    asked: Vec<String>,
    failures: u64,
}

impl TestLister for OneTest {
    ghost use Rattle.std.specs.Prelude.{◌∷◌, [], Some, codes};
    ghost use Rattle.list_facts.specs.Texts.{texts};

    ghost shown = { λ s. record {
      asked = texts s.asked.items;
      failures = s.failures;
      listing_of = λ _. Some (codes "starts" ∷ []);
    } };

    fn list(&mut self, binary: &BinaryInfo<'_>) -> Result<Listing, ListFault> {
        let (alloc, failures) = (self.alloc, self.failures);
        let answer = one_test(alloc, &mut self.asked, failures, binary.id);
        if answer.is_err() {
            self.failures = failures.saturating_add(1);
        }
        answer
    }
}

fn one_test(
    alloc: Global,
    asked: &mut Vec<String>,
    failures: u64,
    id: &str,
) -> Result<Listing, ListFault>
    ensures asks { OnOk result (texts asked.new.items ≡ texts asked.old.items ++ id.now ∷ []) }
    ensures answers { IfOk result (λ v. (failures < largest)
        × (texts v.items ≡ codes "starts" ∷ [])) }
    ensures fails { OnErr result ((texts asked.new.items ≡ texts asked.old.items)
        ⊎ (texts asked.new.items ≡ texts asked.old.items ++ id.now ∷ [])) }
{
    asked.push(String::from_str(alloc, id)?)?;
    if failures == u64::MAX {
        return Err(ListFault);
    }
    let mut names = Vec::new(alloc);
    names.push(String::from_str(alloc, "starts")?)?;
    Ok(names)
}

#[test]
fn selects_by_a_lister_of_its_own(rt: HostRuntime) {
    let alloc = rt.alloc();
    let question = question_of(&rt, alloc, RECORD, CHOICE);
    let (record, choice, table) = (&question.record, &question.choice, &question.table);
    let (scope, texts) = (LinkScope::SwitchedOn, ["package(=app)"]);
    let mut lister = OneTest {
        alloc,
        asked: Vec::new(alloc),
        failures: 0,
    };
    let selection = select(alloc, record, choice, table, scope, &texts, &mut lister);
    let selection = selection.expect(&rt, "a selection");
    let mut report: Vec<u8> = Vec::new(alloc);
    assert!(rt; write_report(&selection, &mut report).is_ok());
    let expected: &[u8] = b"app starts\napp::net starts\n";
    assert!(rt; report.as_slice() == expected);
    assert_eq!(rt; lister.asked.len(), 2);
}
