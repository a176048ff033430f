//! The laws of the seam between feature graphs and the rules of records.

ghost use Rattle.test_select_feature_laws.specs.EdgeSeams.{EdgesCloseAsDemandsDo, EdgesCloseAsRulesDo, EdgesLeadToWhatIsOn};

use crate::demand_laws::{demands_close_as_rules_do, what_is_chosen_leads_on};

/// A set of nodes is closed under the edges that lead always and the offers behind which a line counts
/// exactly where it is closed under what the rows demand: a feature its package, its entries what they
/// name, a line what it asks for.
pub fn edges_close_as_demands_do()
    ensures seam { EdgesCloseAsDemandsDo }
{}

/// A set of features is closed under the edges that lead always and the offers behind which a line
/// counts exactly where it is closed under the rules of the record that hold under each choice.
pub fn edges_close_as_rules_do()
    ensures seam { EdgesCloseAsRulesDo }
{
    edges_close_as_demands_do();
    demands_close_as_rules_do();
}

/// What is on is the least set of features that has what the choice switches on by itself and is closed
/// under these edges and offers.
pub fn edges_lead_to_what_is_on()
    ensures seam { EdgesLeadToWhatIsOn }
{
    edges_close_as_rules_do();
    what_is_chosen_leads_on();
}
