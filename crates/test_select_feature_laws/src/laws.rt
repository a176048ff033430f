//! The laws of records that keep the rules.

ghost use Rattle.test_select_feature_laws.specs.Laws.{KeptEdgesLeadToWhatIsOn, KeptRecordsHaveGraphs, LinesOnJoinPackagesOn, OrderIsFree, WorkspacePackagesAreOn};

use crate::edge_laws::edges_lead_to_what_is_on as edges_of_graphs_lead_to_what_is_on;

/// A feature graph that is built of the rows of a record which keeps the rules is the graph of that
/// record: no package names a feature twice, and each optional line has its name among the optional
/// dependencies of its source.
pub fn kept_records_have_graphs()
    ensures graphs { KeptRecordsHaveGraphs }
{}

/// What is on in a record that keeps the rules is the least set of features that has what the choice
/// switches on by itself and is closed under the edges of its feature graph that lead always and the
/// offers behind which a line counts.
pub fn edges_lead_to_what_is_on()
    ensures seam { KeptEdgesLeadToWhatIsOn }
{
    kept_records_have_graphs();
    edges_of_graphs_lead_to_what_is_on();
}

/// In a record that keeps the rules each workspace package is on, whatever the choice and the platform.
pub fn workspace_packages_are_on()
    ensures on { WorkspacePackagesAreOn }
{}

/// In a record that keeps the rules each line that is on leads from a package that is on to one that is
/// on.
pub fn lines_on_join_packages_on()
    ensures join { LinesOnJoinPackagesOn }
{}

/// In records that keep the rules another order changes nothing that is on: of packages, their features,
/// the entries of these, and optional dependencies; of links, their lines, and the features that these list;
/// and of members.
pub fn order_is_free()
    ensures free { OrderIsFree }
{}
