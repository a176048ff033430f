//! The rules by which Cargo switches features on, numbered; which lines of a link count; and features
//! that were found to be on.
//!
//! Rules are made of texts that the record and the choice lend (`LentRule`, with `FeatureRef`): in
//! contracts such a rule is the rule. `rules` and `rules_in` copy it for those who keep rules, and
//! whoever is handed rules lends them (`lend_rules`).
//!
//! Begin with `specs/RuleList.antt`, `specs/IsRule.antt` and `specs/Closed.antt`: who trusts an account
//! reads these three. Then `rule_list.rt`. The order of the rules is public, since accounts give their
//! numbers.

#![tactic(auto)]

mod feature_ref;
pub mod found;
mod lent_rule;
mod lines;
mod own_features;
pub mod parts;
mod rule;
mod rule_list;

pub use crate::feature_ref::FeatureRef;
pub use crate::lent_rule::{LentPremises, LentRule, lend_rules};
pub use crate::lines::{counts, is_in_force};
pub use crate::own_features::chosen_features;
pub use crate::rule::{Premises, Rule};
pub use crate::rule_list::{lent_rules, rules, rules_in};
