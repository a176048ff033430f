//! The checker of explanations. It reads the rules and the entries, as that of accounts does.

ghost use Rattle.std.specs.Prelude.{◌≡◌, [], ◌↔◌, IfOk, IsTrue, MatchOption};
ghost use Rattle.feature_account.specs.Accounts.{IsSound};
ghost use Rattle.feature_account.specs.Explanations.{EachIsUsed, EndsIn, IsExplanation, IsExplanationVerdict, IsFirstUnused};
ghost use Rattle.feature_account_rules.specs.RuleList.{rule_list};

use crate::soundness::{first_fault, rule_of};
use crate::verdict::Verdict;
use feature_account_rules::found::{contains, insert_premises};
use feature_account_rules::{FeatureRef, LentRule, lent_rules};
use indexmap::IndexSet;
use std::alloc::{AllocError, Global};
use workspace_record::{Feature, FeatureChoice, PlatformTable, RecordIndex, WorkspaceRecord};

/// Whether a list of rule numbers explains why the feature is on: each rule is known, each conclusion
/// is new, each premise is concluded earlier, the last entry concludes the feature, and what each other
/// one concludes is a premise of a later one. Else the first fault: those of entries that may not
/// stand, by place, as `check_account` tells them, before a goal that is not reached, and that before an
/// entry that is not used.
///
/// Takes any record. The work grows as that of `rules`, and with the entries.
pub fn check_explanation(
    alloc: Global,
    record: &WorkspaceRecord,
    choice: &FeatureChoice,
    table: &PlatformTable,
    feature: &Feature,
    explanation: &[usize],
) -> Result<Verdict, AllocError>
    ensures verdict { IfOk result (IsExplanationVerdict (rule_list record.now choice.now table.now)
        feature.now explanation.now) }
    ensures accepted { IfOk result (λ v. (v ≡ Verdict.Accepted)
        ↔ IsExplanation (rule_list record.now choice.now table.now) feature.now explanation.now) }
{
    let index = RecordIndex::of(alloc, record)?;
    let rules = lent_rules(alloc, &index, choice, table)?;
    verdict_of(alloc, &rules, feature, explanation)
}

fn verdict_of(
    alloc: Global,
    rules: &[LentRule<'_>],
    goal: &Feature,
    entries: &[usize],
) -> Result<Verdict, AllocError>
    ensures { IfOk result (IsExplanationVerdict rules.now goal.now entries.now) }
{
    let fault = {
        let mut concluded = IndexSet::new(alloc);
        first_fault(rules, entries, &mut concluded)
    };
    match fault? {
        Some(fault) => Ok(fault),
        None => verdict_on_use(alloc, rules, goal, entries),
    }
}

// Of entries that may all stand: whether the last concludes the goal, and the others are used.
fn verdict_on_use(
    alloc: Global,
    rules: &[LentRule<'_>],
    goal: &Feature,
    entries: &[usize],
) -> Result<Verdict, AllocError>
    requires { IsSound rules.now entries.now }
    ensures { IfOk result (IsExplanationVerdict rules.now goal.now entries.now) }
{
    if !ends_in(rules, goal, entries) {
        return Ok(Verdict::NotGoal);
    }
    let mut needed: IndexSet<&FeatureRef<'_>> = IndexSet::new(alloc);
    match first_unneeded(&mut needed, rules, entries)? {
        None => Ok(Verdict::Accepted),
        Some(place) => Ok(Verdict::Unused(place)),
    }
}

// Whether the last entry concludes the goal.
fn ends_in(rules: &[LentRule<'_>], goal: &Feature, entries: &[usize]) -> bool
    ensures { IsTrue result ↔ EndsIn rules.now goal.now entries.now }
{
    match entries.split_last() {
        None => false,
        Some((number, _)) => match rules.get(*number) {
            None => false,
            Some(rule) => *rule.conclusion() == FeatureRef::of(goal),
        },
    }
}

// The first entry but the last whose conclusion is no premise of a later one, if there is one: the last
// that is found on the way from the end. The set is for the premises of later entries, and empty yet.
fn first_unneeded<'r, 'a>(
    needed: &mut IndexSet<&'r FeatureRef<'a>>,
    rules: &'r [LentRule<'a>],
    entries: &[usize],
) -> Result<Option<usize>, AllocError>
    requires empty { needed.old.keys ≡ [] }
    requires sound { IsSound rules.now entries.now }
    ensures { IfOk result (λ o. MatchOption o (EachIsUsed rules.entry.now entries.now)
        (IsFirstUnused rules.entry.now entries.now)) }
{
    let mut unused = None;
    for place in (0..entries.len()).rev() {
        let rule = rule_of(rules, entries[place]);
        if place + 1 < entries.len() && !contains(needed, rule.conclusion()) {
            unused = Some(place);
        }
        insert_premises(needed, rule.premises())?;
    }
    Ok(unused)
}
