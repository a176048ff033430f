//! The checker of accounts. It shares nothing with the graphs that the accounts are made by: it reads
//! the rules and the account, entry by entry.

ghost use Rattle.std.specs.Prelude.{◌≡◌, [], ◌↔◌, IfOk, IfNone, IfSome};
ghost use Rattle.feature_account_rules.specs.Closed.{IsClosed};
ghost use Rattle.feature_account_rules.specs.Found.{found_set};
ghost use Rattle.feature_account.specs.Accounts.{IsFirstOpen, IsValidAccount, IsVerdict};
ghost use Rattle.feature_account_rules.specs.RuleList.{rule_list};

use crate::soundness::first_fault;
use crate::verdict::Verdict;
use feature_account_rules::found::is_open;
use feature_account_rules::{FeatureRef, LentRule, lent_rules};
use indexmap::IndexSet;
use std::alloc::{AllocError, Global};
use workspace_record::{FeatureChoice, PlatformTable, RecordIndex, WorkspaceRecord};

/// Whether a list of rule numbers accounts for what is on: each rule is known, each conclusion is new,
/// each premise is concluded earlier, and what is concluded is closed under the rules. Else the first
/// fault, a number that no rule has before a repeated conclusion before a missing premise at one place,
/// and all of them before a rule that is left out.
///
/// Takes any record. The work grows as that of `rules`, and with the entries and rules.
pub fn check_account(
    alloc: Global,
    record: &WorkspaceRecord,
    choice: &FeatureChoice,
    table: &PlatformTable,
    account: &[usize],
) -> Result<Verdict, AllocError>
    ensures verdict { IfOk result (IsVerdict (rule_list record.now choice.now table.now)
        account.now) }
    ensures accepted { IfOk result (λ v. (v ≡ Verdict.Accepted)
        ↔ IsValidAccount (rule_list record.now choice.now table.now) account.now) }
{
    let index = RecordIndex::of(alloc, record)?;
    let rules = lent_rules(alloc, &index, choice, table)?;
    verdict_of(alloc, &rules, account)
}

// The lowest rule that is open, if there is one.
fn first_open<'r, 'a>(
    rules: &'r [LentRule<'a>],
    concluded: &IndexSet<&'r FeatureRef<'a>>,
) -> Option<usize>
    ensures none { IfNone result (IsClosed rules.entry.now (found_set concluded.now)) }
    ensures first { IfSome result (IsFirstOpen rules.entry.now (found_set concluded.now)) }
{
    for (number, rule) in rules.iter().enumerate() {
        if is_open(concluded, rule) {
            return Some(number);
        }
    }
    None
}

fn verdict_of(
    alloc: Global,
    rules: &[LentRule<'_>],
    account: &[usize],
) -> Result<Verdict, AllocError>
    ensures { IfOk result (IsVerdict rules.now account.now) }
{
    let mut concluded = IndexSet::new(alloc);
    verdict_by(&mut concluded, rules, account)
}

/// The verdict, by a set for the features that are concluded, which is empty yet.
fn verdict_by<'r, 'a>(
    concluded: &mut IndexSet<&'r FeatureRef<'a>>,
    rules: &'r [LentRule<'a>],
    account: &[usize],
) -> Result<Verdict, AllocError>
    requires { concluded.old.keys ≡ [] }
    ensures { IfOk result (IsVerdict rules.entry.now account.now) }
{
    match first_fault(rules, account, concluded)? {
        Some(fault) => Ok(fault),
        None => match first_open(rules, concluded) {
            None => Ok(Verdict::Accepted),
            Some(number) => Ok(Verdict::NotClosed(number)),
        },
    }
}
