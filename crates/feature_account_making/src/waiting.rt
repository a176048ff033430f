//! Which rules wait for a feature: those that have it among their premises.

ghost use Rattle.std.specs.Prelude.{◌≡◌, [], ◌∷◌, ◌++◌, OnOk, IfOk, if◌then◌else◌};
ghost use Rattle.workspace_record.specs.Features.{FeatureValue, feature_eq};
ghost use Rattle.feature_account_rules.specs.LentPremises.{lent_premises_view};
ghost use Rattle.feature_account_making.specs.Waiting.{is_premise, waiting_at, IsWaiting};

use feature_account::{FeatureRef, LentPremises, LentRule};
use indexmap::IndexMap;
use std::alloc::{AllocError, Global};

/// The numbers of the rules that wait for a feature, found by the feature.
pub(crate) fn waiting_rules<'r, 'a>(
    alloc: Global,
    rules: &'r [LentRule<'a>],
) -> Result<IndexMap<&'r FeatureRef<'a>, Vec<usize>>, AllocError>
    ensures { IfOk result (IsWaiting rules.entry.now) }
{
    let mut waiting = IndexMap::new(alloc);
    for (number, rule) in rules.iter().enumerate() {
        add_premises(alloc, &mut waiting, rule.premises(), number)?;
    }
    Ok(waiting)
}

fn add_premises<'r, 'a>(
    alloc: Global,
    waiting: &mut IndexMap<&'r FeatureRef<'a>, Vec<usize>>,
    premises: &'r LentPremises<'a>,
    number: usize,
) -> Result<(), AllocError>
    ensures { OnOk result ((f : FeatureValue)
        → waiting_at waiting.new f
        ≡ waiting_at waiting.old f
        ++ (if is_premise (lent_premises_view premises.entry.now) f then number ∷ [] else [])) }
{
    match premises {
        LentPremises::None => Ok(()),
        LentPremises::One(a) => add_number(alloc, waiting, a, number),
        LentPremises::Two(a, b) => {
            if a != b {
                add_number(alloc, waiting, a, number)?;
            }
            add_number(alloc, waiting, b, number)
        }
    }
}

fn add_number<'r, 'a>(
    alloc: Global,
    waiting: &mut IndexMap<&'r FeatureRef<'a>, Vec<usize>>,
    feature: &'r FeatureRef<'a>,
    number: usize,
) -> Result<(), AllocError>
    ensures { OnOk result ((f : FeatureValue)
        → waiting_at waiting.new f
        ≡ waiting_at waiting.old f
        ++ (if feature_eq f feature.entry.now then number ∷ [] else [])) }
{
    let numbers = waiting.entry(feature)?.or_insert(Vec::new(alloc));
    numbers.push(number)?;
    Ok(())
}
