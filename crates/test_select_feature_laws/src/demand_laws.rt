//! The laws of the seam between what rows demand and the rules of records.

ghost use Rattle.test_select_feature_laws.specs.DemandSeams.{DemandsCloseAsRulesDo, WhatIsChosenLeadsOn};

/// A set of features is closed under what the rows of a record demand exactly where it is closed under
/// the rules that hold under each choice.
pub fn demands_close_as_rules_do()
    ensures seam { DemandsCloseAsRulesDo }
{}

/// What is on is the least set of features that has what the choice switches on by itself and is closed
/// under the rules that hold under each choice.
pub fn what_is_chosen_leads_on()
    ensures seam { WhatIsChosenLeadsOn }
{}
