//! The entries of an account that the conclusion of one feature rests on.

ghost use Rattle.std.specs.Prelude.{◌≡◌, ◌≢◌, ◌↔◌, [], false, IfOk, IfSome, IsSome, IsTrue};
ghost use Rattle.feature_account.specs.Accounts.{concludes, IsSound};
ghost use Rattle.feature_account.specs.Explanations.{IsExplanation, IsSublist};

use feature_account::{FeatureRef, LentRule, Rule, lend_rules, rule_of};
use feature_account_rules::found::{contains, insert, insert_premises};
use indexmap::IndexSet;
use std::alloc::{AllocError, Global};
use workspace_record::Feature;

// It goes over the account from its end with the features that are needed, and takes an entry that concludes
// one of them. Of the account's sublists just one can explain a feature, since no two entries conclude the
// same; no law says so.
/// The entries of an account, in its order, that the conclusion of the feature rests on, that one last;
/// none where no entry concludes the feature.
///
/// Takes any account whose entries may all stand. The work grows with the entries.
pub fn explanation_of(
    alloc: Global,
    rules: &[Rule],
    account: &[usize],
    feature: &Feature,
) -> Result<Option<Vec<usize>>, AllocError>
    requires sound { IsSound rules.now account.now }
    ensures found { IfOk result (λ o. IsSome o
        ↔ IsTrue (concludes rules.now account.now feature.now)) }
    ensures explains { IfOk result (λ o. IfSome o
        (λ v. IsExplanation rules.now feature.now v.items)) }
    ensures in_order { IfOk result (λ o. IfSome o (λ v. IsSublist v.items account.now)) }
{
    let lent = lend_rules(alloc, rules)?;
    let goal = FeatureRef::of(feature);
    let mut needed: IndexSet<&FeatureRef<'_>> = IndexSet::new(alloc);
    let entries = entries_by(alloc, &lent, account, &goal, &mut needed)?;
    if entries.is_empty() {
        return Ok(None);
    }
    Ok(Some(entries))
}

// The entries of which each concludes the goal or a premise of a later one, in the order of the account: it goes
// from the end.
fn entries_by<'r, 'a>(
    alloc: Global,
    rules: &'r [LentRule<'a>],
    account: &[usize],
    goal: &'r FeatureRef<'a>,
    needed: &mut IndexSet<&'r FeatureRef<'a>>,
) -> Result<Vec<usize>, AllocError>
    requires sound { IsSound rules.now account.now }
    requires none_needed { needed.old.keys ≡ [] }
    ensures none { IfOk result (λ v. v.items ≡ []
        → concludes rules.entry.now account.now goal.entry.now ≡ false) }
    ensures explains { IfOk result (λ v. v.items ≢ []
        → IsExplanation rules.entry.now goal.entry.now v.items) }
    ensures in_order { IfOk result (λ v. IsSublist v.items account.now) }
{
    insert(needed, goal)?;
    let mut entries = Vec::new(alloc);
    for place in (0..account.len()).rev() {
        let rule = rule_of(rules, account[place]);
        if contains(needed, rule.conclusion()) {
            entries.push(account[place])?;
            insert_premises(needed, rule.premises())?;
        }
    }
    entries.reverse();
    Ok(entries)
}
