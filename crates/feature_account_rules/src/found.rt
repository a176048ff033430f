//! Features that were found to be on, in a set that finds them at once.

ghost use Rattle.std.specs.Prelude.{◌≡◌, ◌||◌, false, OnOk};
ghost use Rattle.workspace_record.specs.Features.{FeatureValue, feature_eq};
ghost use Rattle.feature_account_rules.specs.Closed.{has_premises, is_open, is_premise};
ghost use Rattle.feature_account_rules.specs.Found.{found_set};
ghost use Rattle.feature_account_rules.specs.LentPremises.{lent_premises_view};

use crate::feature_ref::FeatureRef;
use crate::lent_rule::{LentPremises, LentRule};
use indexmap::IndexSet;
use std::alloc::AllocError;

/// Whether the feature was found.
pub fn contains<'r, 'a>(found: &IndexSet<&'r FeatureRef<'a>>, feature: &'r FeatureRef<'a>) -> bool
    ensures answer { result ≡ found_set found.now feature.entry.now }
{
    found.contains(&feature)
}

/// Whether all of the premises were found.
pub fn has_premises<'r, 'a>(
    found: &IndexSet<&'r FeatureRef<'a>>,
    premises: &'r LentPremises<'a>,
) -> bool
    ensures answer { result ≡ has_premises (found_set found.now)
        (lent_premises_view premises.entry.now) }
{
    match premises {
        LentPremises::None => true,
        LentPremises::One(a) => contains(found, a),
        LentPremises::Two(a, b) => contains(found, a) && contains(found, b),
    }
}

/// Whether the premises of a rule were found, and not its conclusion.
pub fn is_open<'r, 'a>(found: &IndexSet<&'r FeatureRef<'a>>, rule: &'r LentRule<'a>) -> bool
    ensures answer { result ≡ is_open (found_set found.now) rule.entry.now }
{
    has_premises(found, rule.premises()) && !contains(found, rule.conclusion())
}

/// Finds one feature more.
pub fn insert<'r, 'a>(
    found: &mut IndexSet<&'r FeatureRef<'a>>,
    feature: &'r FeatureRef<'a>,
) -> Result<(), AllocError>
    ensures found { OnOk result ((f : FeatureValue)
        → found_set found.new f
        ≡ (found_set found.old f || (feature_eq f feature.entry.now || false))) }
{
    found.insert(feature)?;
    Ok(())
}

/// Finds the premises too.
pub fn insert_premises<'r, 'a>(
    found: &mut IndexSet<&'r FeatureRef<'a>>,
    premises: &'r LentPremises<'a>,
) -> Result<(), AllocError>
    ensures found { OnOk result ((f : FeatureValue)
        → found_set found.new f
        ≡ (is_premise (lent_premises_view premises.entry.now) f || found_set found.old f)) }
{
    match premises {
        LentPremises::None => Ok(()),
        LentPremises::One(a) => insert(found, a),
        LentPremises::Two(a, b) => {
            insert(found, a)?;
            insert(found, b)
        }
    }
}
