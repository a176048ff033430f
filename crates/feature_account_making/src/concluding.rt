//! What is on, and why, by the rules alone.

ghost use Rattle.std.specs.Prelude.{◌≡◌, ◌↔◌, IfOk, IfSome, IsSome, Contains};
ghost use Rattle.std.specs.List.Sorted.{IsStrictlySortedBy};
ghost use Rattle.workspace_record.specs.Features.{FeatureValue, feature_cmp};
ghost use Rattle.feature_account.specs.Accounts.{conclusions};
ghost use Rattle.feature_account_rules.specs.Closed.{IsOn};
ghost use Rattle.feature_account.specs.Explanations.{IsExplanation};
ghost use Rattle.feature_account_rules.specs.RuleList.{rule_list};
ghost use Rattle.feature_account_making.specs.Lowest.{IsLowestAccount};
ghost use Rattle.feature_account_making.specs.OfAccounts.{AreOfAccount};

use crate::explaining::explanation_of;
use crate::making::account_of;
use feature_account::{Rule, rules};
use std::alloc::{AllocError, Global};
use test_select_rules::FeaturesOn;
use workspace_record::{Feature, FeatureChoice, PlatformTable, WorkspaceRecord};

/// The features that are on: those in every set that the rules of the record, the choice and the table
/// close, ascending, each once. They are what the account of the rules concludes.
///
/// Takes any record. The work grows as that of `rules` and `account_of`.
pub fn on_features(
    alloc: Global,
    record: &WorkspaceRecord,
    choice: &FeatureChoice,
    table: &PlatformTable,
) -> Result<FeaturesOn, AllocError>
    ensures on { IfOk result (λ on. (f : FeatureValue) → Contains on f
        ↔ IsOn (rule_list record.now choice.now table.now) f) }
    ensures ascending { IfOk result (λ on. IsStrictlySortedBy feature_cmp on) }
{
    let rules = rules(alloc, record, choice, table)?;
    on_by(alloc, &rules)
}

/// What is on by the rules.
fn on_by(alloc: Global, rules: &[Rule]) -> Result<FeaturesOn, AllocError>
    ensures on { IfOk result (λ on. (f : FeatureValue) → Contains on f ↔ IsOn rules.now f) }
    ensures ascending { IfOk result (λ on. IsStrictlySortedBy feature_cmp on) }
{
    let account = account_of(alloc, rules)?;
    FeaturesOn::of(concluded(alloc, rules, &account.rules)?)
}

/// The account of what is on, each entry of which is the lowest rule that may stand at its place.
///
/// Takes any record.
pub fn account(
    alloc: Global,
    record: &WorkspaceRecord,
    choice: &FeatureChoice,
    table: &PlatformTable,
) -> Result<Vec<usize>, AllocError>
    ensures lowest { IfOk result (λ v. IsLowestAccount (rule_list record.now choice.now table.now)
        v.items) }
{
    let rules = rules(alloc, record, choice, table)?;
    let account = account_of(alloc, &rules)?;
    Ok(account.rules)
}

/// The entries of that account, in its order, that explain why the feature is on; none where it is not.
///
/// Takes any record.
pub fn explanation(
    alloc: Global,
    record: &WorkspaceRecord,
    choice: &FeatureChoice,
    table: &PlatformTable,
    feature: &Feature,
) -> Result<Option<Vec<usize>>, AllocError>
    ensures found { IfOk result (λ o. IsSome o
        ↔ IsOn (rule_list record.now choice.now table.now) feature.now) }
    ensures explains { IfOk result (λ o. IfSome o
        (λ v. IsExplanation (rule_list record.now choice.now table.now) feature.now v.items)) }
    ensures in_order { IfOk result (λ o. IfSome o
        (λ v. AreOfAccount (rule_list record.now choice.now table.now) v.items)) }
{
    let rules = rules(alloc, record, choice, table)?;
    explained_by(alloc, &rules, feature)
}

/// The explanation of the feature by the rules.
fn explained_by(
    alloc: Global,
    rules: &[Rule],
    feature: &Feature,
) -> Result<Option<Vec<usize>>, AllocError>
    ensures found { IfOk result (λ o. IsSome o ↔ IsOn rules.now feature.now) }
    ensures explains { IfOk result (λ o. IfSome o
        (λ v. IsExplanation rules.now feature.now v.items)) }
    ensures in_order { IfOk result (λ o. IfSome o (λ v. AreOfAccount rules.now v.items)) }
{
    let account = account_of(alloc, rules)?;
    explanation_of(alloc, rules, &account.rules, feature)
}

/// What the entries conclude, in their order; a number that no rule has concludes nothing.
fn concluded(alloc: Global, rules: &[Rule], entries: &[usize]) -> Result<Vec<Feature>, AllocError>
    ensures { IfOk result (λ v. v.items ≡ conclusions rules.now entries.now) }
{
    let mut features = Vec::new(alloc);
    for number in entries {
        if let Some(rule) = rules.get(*number) {
            features.push(rule.conclusion.copy(alloc)?)?;
        }
    }
    Ok(features)
}
