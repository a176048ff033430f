//! Which binaries are available where some features are on.

ghost use Rattle.std.specs.Prelude.{◌≡◌, ◌↔◌, IsTrue, Contains, string_bytes};
ghost use Rattle.std.specs.List.{list_all};
ghost use Rattle.feature_account.specs.Accounts.{concluded_set};
ghost use Rattle.feature_account_rules.specs.RuleList.{named_of};
ghost use Rattle.test_select_rules.specs.OnLines.{HasRequired};

use crate::features::FeaturesOn;
use workspace_record::TargetRecord;

/// Whether each feature that the target requires of its package is on.
pub fn is_available(on: &FeaturesOn, package_id: &str, target: &TargetRecord) -> bool
    ensures { IsTrue result ↔ HasRequired (λ f. Contains on.now f) package_id.now target.now }
{
    contains_all_named(on, package_id, &target.required_features)
}

fn contains_all_named(on: &FeaturesOn, package_id: &str, names: &[String]) -> bool
    ensures { result ≡ list_all (λ name.
        concluded_set on.now (named_of package_id.now (string_bytes name))) names.now }
{
    names
        .iter()
        .all(|name| on.contains_named(package_id, name.as_str()))
}
