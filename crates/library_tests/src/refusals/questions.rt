//! Rules, what is on, accounts, explanations and orders, and the checks of records and accounts.

use crate::refusals::turns::{AllocatingCall, Refusal, answered, refuse_in_turn, told};
use crate::workspace::{CHOICE, Question, RECORD, debugged, question_of, simd};
use std::alloc::{AllocError, Global};
use test_select::{
    Feature, RecordError, SelectError, account, check_account, check_explanation, check_record,
    explain, features_on, package_order, rules,
};

/// What is asked.
#[derive(Clone, Copy)]
enum Asked {
    /// How many rules there are.
    Rules,
    Checked,
    /// How many features are on.
    On,
    Account,
    Explanation,
    Order,
    CheckedAccount(&'static [usize]),
    CheckedExplanation(&'static [usize]),
}

#[derive(Drop)]
struct Asks<'q, 'f> {
    asked: Asked,
    question: &'q Question,
    goal: &'f Feature,
}

impl AllocatingCall for Asks<'_, '_> {
    fn answer(&mut self, alloc: Global) -> Result<String, Refusal> {
        let question = self.question;
        let (record, choice, table) = (&question.record, &question.choice, &question.table);
        match self.asked {
            Asked::Rules => {
                let rules = rules(alloc, record, choice, table)?;
                Ok(format!(in alloc; "{}", rules.len())?)
            }
            Asked::Checked => told(alloc, check_record(alloc, record), RecordError::Memory),
            Asked::On => {
                let on = answered(
                    features_on(alloc, record, choice, table),
                    SelectError::Memory,
                )?;
                Ok(format!(in alloc; "{}", on.as_slice().len())?)
            }
            Asked::Account => {
                let account = answered(account(alloc, record, choice, table), SelectError::Memory)?;
                Ok(format!(in alloc; "{:?}", account.rules)?)
            }
            Asked::Explanation => {
                let entries = explain(alloc, record, choice, table, self.goal);
                told(alloc, entries, SelectError::Memory)
            }
            Asked::Order => {
                let ids = package_order(alloc, record, choice, table);
                told(alloc, ids, SelectError::Memory)
            }
            Asked::CheckedAccount(entries) => {
                let verdict = check_account(alloc, record, choice, table, entries);
                told(alloc, verdict, AllocError)
            }
            Asked::CheckedExplanation(entries) => {
                let verdict = check_explanation(alloc, record, choice, table, self.goal, entries);
                told(alloc, verdict, AllocError)
            }
        }
    }
}

const ANSWERS: [(Asked, &str); 9] = [
    (Asked::Rules, "11"),
    (Asked::Checked, "()"),
    (Asked::On, "6"),
    (Asked::Account, "[0, 1, 2, 3, 8, 9]"),
    (Asked::Explanation, "Some([2, 3, 8, 9])"),
    (Asked::Order, r#"["util", "app"]"#),
    (Asked::CheckedAccount(&[0, 1, 2, 3, 8, 9]), "Accepted"),
    (Asked::CheckedAccount(&[0, 1, 3]), "NotClosed(2)"),
    (Asked::CheckedExplanation(&[3, 8, 2, 9]), "Accepted"),
];

/// The record is afterwards what it was before.
#[test]
fn questions(rt: HostRuntime) {
    let goal = &simd(&rt, rt.alloc());
    let question = &question_of(&rt, rt.alloc(), RECORD, CHOICE);
    let before = debugged(&rt, rt.alloc(), &question.record);
    for (asked, wanted) in ANSWERS {
        let mut run = Asks {
            asked,
            question,
            goal,
        };
        refuse_in_turn(&rt, rt.alloc(), &mut run, wanted);
    }
    assert_eq!(rt; debugged(&rt, rt.alloc(), &question.record), before);
}
