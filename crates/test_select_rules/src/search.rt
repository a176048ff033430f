//! The search for a feature among features that ascend, by halving.

ghost use Rattle.std.specs.Prelude.{◌≡◌, ◌+◌, ◌≤◌, length};
ghost use Rattle.std.specs.List.Sorted.{IsStrictlySortedBy};
ghost use Rattle.workspace_record.specs.Features.{feature_cmp};
ghost use Rattle.feature_account.specs.Accounts.{concluded_set};
ghost use Rattle.test_select_rules.specs.CountedViews.{counted_list};
ghost use Rattle.test_select_rules.specs.Digits.{digits};

use crate::counted_features::CountedFeatures;
use feature_account::FeatureRef;
use numbered_graph::Looks;
use std::cmp::Ordering;
use std::sync::ledger::Ledger;
use workspace_record::Feature;

/// Whether the wanted one is among the features, which ascend.
pub(crate) fn finds(features: &[Feature], wanted: &FeatureRef<'_>) -> bool
    requires { IsStrictlySortedBy feature_cmp features.now }
    ensures { result ≡ concluded_set features.now wanted.now }
{
    let found = features.binary_search_by(|feature| FeatureRef::of(feature).cmp(wanted));
    found.is_ok()
}

/// The same; each feature that is compared is a look.
pub(crate) fn finds_counted<L: Ledger>(
    features: &CountedFeatures<'_>,
    wanted: &FeatureRef<'_>,
    looks: &mut Looks<L>,
) -> bool
    requires { IsStrictlySortedBy feature_cmp (counted_list features.now) }
    ensures found { result ≡ concluded_set (counted_list features.now) wanted.now }
    ensures looks { looks.new ≤ looks.old + digits (length (counted_list features.now)) }
{
    let mut low = 0;
    let mut high = features.len();
    while low < high {
        let middle = low + (high - low) / 2;
        match features.compare(middle, wanted, looks) {
            Ordering::Equal => return true,
            Ordering::Less => low = middle + 1,
            Ordering::Greater => high = middle,
        }
    }
    false
}
