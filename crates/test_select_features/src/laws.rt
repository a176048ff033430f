//! The law of where a resolve begins.

ghost use Rattle.test_select_features.specs.InitialLaws.{InitialsLeadAsTheChoiceDoes, InitialsLeadToWhatIsOn};
ghost use Rattle.test_select_features.specs.SwitchingLaws.{SwitchingKeepsPackages};

use test_select_feature_laws::laws::edges_lead_to_what_is_on;

/// In the feature graph of a record that keeps the rules, the features of members that a choice's filter
/// takes, standard ones and known extras, lead to the same least set as what the choice switches on by
/// itself. It is what is on.
pub fn initials_lead_to_what_is_on()
    ensures same { InitialsLeadAsTheChoiceDoes }
    ensures on { InitialsLeadToWhatIsOn }
{
    edges_lead_to_what_is_on();
}

/// A graph and that of the lines that are on have the same packages, so that each takes the sets and
/// queries of the other.
pub fn switching_keeps_packages()
    ensures { SwitchingKeepsPackages }
{}
