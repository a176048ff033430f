//! Whether each entry of a list may stand where it does.

ghost use Rattle.std.specs.Prelude.{◌≡◌, ◌<◌, [], length, slice_get, IfOk, IfNone, IfSome};
ghost use Rattle.feature_account.specs.Accounts.{concludes, IsFault, IsSound};
ghost use Rattle.feature_account_rules.specs.Found.{found_set};

use crate::verdict::Verdict;
use feature_account_rules::found::{contains, has_premises, insert};
use feature_account_rules::{FeatureRef, LentRule};
use indexmap::IndexSet;
use std::alloc::AllocError;

/// The first entry that may not stand, if there is one; else all that the entries conclude is found.
pub(crate) fn first_fault<'r, 'a>(
    rules: &'r [LentRule<'a>],
    entries: &[usize],
    concluded: &mut IndexSet<&'r FeatureRef<'a>>,
) -> Result<Option<Verdict>, AllocError>
    requires { concluded.old.keys ≡ [] }
    ensures fault { IfOk result (λ o. IfSome o (IsFault rules.entry.now entries.now)) }
    ensures sound { IfOk result (λ o. IfNone o (IsSound rules.entry.now entries.now)) }
    ensures concluded { IfOk result (λ o. IfNone o
        (found_set concluded.new ≡ concludes rules.entry.now entries.now)) }
{
    for (place, number) in entries.iter().enumerate() {
        let Some(rule) = rules.get(*number) else {
            return Ok(Some(Verdict::UnknownRule(place)));
        };
        let conclusion = rule.conclusion();
        if contains(concluded, conclusion) {
            return Ok(Some(Verdict::RepeatedConclusion(place)));
        }
        if !has_premises(concluded, rule.premises()) {
            return Ok(Some(Verdict::MissingPremise(place)));
        }
        insert(concluded, conclusion)?;
    }
    Ok(None)
}

// Public, so that the crates above look rules up by what stands already.
/// The rule with this number.
pub fn rule_of<'r, 'a>(rules: &'r [LentRule<'a>], number: usize) -> &'r LentRule<'a>
    requires known { number < length rules.now }
    ensures stands { slice_get rules.entry.now number ≡ Some result.now }
{
    &rules[number]
}
