//! Checkers of accounts of what is on, and of explanations why a feature is. It gives out the rules
//! that these are about.
//!
//! It shares the list of rules with the search for an account (`feature_account_making`), and
//! nothing else. Both checkers read entries by one loop (`soundness.rt`); that of explanations then
//! goes back over them once, with the set of the premises seen.
//!
//! Begin with `specs/Accounts.antt`, then `account_check.rt`. It is what a stranger trusts, and stays
//! small: nothing here searches, and nothing of the graphs stands below.
#![tactic(auto)]

mod account_check;
mod explanation_check;
pub mod laws;
mod soundness;
mod verdict;

pub use crate::account_check::check_account;
pub use crate::explanation_check::check_explanation;
pub use crate::soundness::rule_of;
pub use crate::verdict::Verdict;
pub use feature_account_rules::{
    FeatureRef, LentPremises, LentRule, Premises, Rule, chosen_features, lend_rules, lent_rules,
    rules, rules_in,
};
pub use workspace_record::{
    Feature, FeatureChoice, FeatureRecord, GroupRecord, Label, LineKind, LineRecord, LinkRecord,
    MemberRecord, PackageInfo, PackageRecord, PlatformTable, Standard, TargetInfo, TargetKind,
    TargetRecord, WorkspaceInfo, WorkspaceRecord,
};
