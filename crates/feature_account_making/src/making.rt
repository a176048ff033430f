//! The account of what is on, by looking at each rule whenever it may have come to stand.

ghost use Rattle.std.specs.Prelude.{◌≡◌, ◌↔◌, [], IfOk, IsTrue, length};
ghost use Rattle.workspace_record.specs.Features.{FeatureValue};
ghost use Rattle.feature_account.specs.Accounts.{concludes};
ghost use Rattle.feature_account_rules.specs.Closed.{IsOn};
ghost use Rattle.feature_account_making.specs.Lowest.{IsLowestAccount, IsLooksOf};
ghost use Rattle.feature_account_making.specs.Waiting.{IsEach, IsWaiting};

use crate::lowest_account::Account;
use crate::rule_queue::RuleQueue;
use crate::waiting::waiting_rules;
use feature_account::{FeatureRef, LentRule, Rule, lend_rules};
use feature_account_rules::found::{insert, is_open};
use indexmap::{IndexMap, IndexSet};
use std::alloc::{AllocError, Global};

/// The account that lists at each place the lowest rule that may stand there, until none may.
///
/// A rule is looked at once at the beginning, and once more after a premise of it was concluded. So
/// the work grows with the rules, times the logarithm of their number.
pub fn account_of(alloc: Global, rules: &[Rule]) -> Result<Account, AllocError>
    ensures lowest { IfOk result (λ a. IsLowestAccount rules.now a.rules.items) }
    ensures on { IfOk result (λ a. (f : FeatureValue) → IsTrue (concludes rules.now a.rules.items f)
        ↔ IsOn rules.now f) }
    ensures looks { IfOk result (λ a. IsLooksOf rules.now a.rules.items a.looks) }
{
    let lent = lend_rules(alloc, rules)?;
    account_of_lent(alloc, &lent)
}

/// The same of rules whose texts are lent.
pub fn account_of_lent(alloc: Global, rules: &[LentRule<'_>]) -> Result<Account, AllocError>
    ensures lowest { IfOk result (λ a. IsLowestAccount rules.now a.rules.items) }
    ensures on { IfOk result (λ a. (f : FeatureValue) → IsTrue (concludes rules.now a.rules.items f)
        ↔ IsOn rules.now f) }
    ensures looks { IfOk result (λ a. IsLooksOf rules.now a.rules.items a.looks) }
{
    let waiting = waiting_rules(alloc, rules)?;
    let mut ready = RuleQueue::each(alloc, rules.len());
    let mut found = IndexSet::new(alloc);
    look_at_each(alloc, rules, &waiting, &mut ready, &mut found)
}

/// Looks at each rule that is ready, and puts those that may stand into the account, until none is ready.
fn look_at_each<'r, 'a>(
    alloc: Global,
    rules: &'r [LentRule<'a>],
    waiting: &IndexMap<&'r FeatureRef<'a>, Vec<usize>>,
    ready: &mut RuleQueue,
    found: &mut IndexSet<&'r FeatureRef<'a>>,
) -> Result<Account, AllocError>
    requires waiting { IsWaiting rules.now waiting.now }
    requires ready { IsEach (length rules.now) ready.old }
    requires found { found.old.keys ≡ [] }
    ensures lowest { IfOk result (λ a. IsLowestAccount rules.entry.now a.rules.items) }
    ensures on { IfOk result (λ a. (f : FeatureValue)
        → IsTrue (concludes rules.entry.now a.rules.items f) ↔ IsOn rules.entry.now f) }
    ensures looks { IfOk result (λ a. IsLooksOf rules.entry.now a.rules.items a.looks) }
{
    let mut account = Vec::new(alloc);
    let mut looks = 0;
    while let Some(number) = ready.take_least() {
        looks += 1;
        let rule = &rules[number];
        if is_open(found, rule) {
            let conclusion = rule.conclusion();
            insert(found, conclusion)?;
            account.push(number)?;
            ready.wake(waiting, conclusion)?;
        }
    }
    Ok(Account {
        rules: account,
        looks,
    })
}
