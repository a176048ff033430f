//! The resolve of a record's feature graph, from what a choice's filter takes of its members' features.

ghost use Rattle.std.specs.Prelude.{◌≡◌, ◌↔◌, None, true, All, Contains, IfOk};
ghost use Rattle.std.specs.List.Sorted.{IsStrictlySortedBy};
ghost use Rattle.workspace_record.specs.Features.{FeatureValue, feature_cmp};
ghost use Rattle.feature_account_rules.specs.Closed.{IsOn};
ghost use Rattle.feature_account_rules.specs.RuleList.{rule_list};
ghost use Rattle.test_select_rules.specs.RecordRules.{fault_of};
ghost use Rattle.guppy_package_parts.specs.declared.dependency_direction.DependencyDirection.TheVariants.{Forward};
ghost use Rattle.guppy_package_table.specs.Tables.{IsTableOf};
ghost use Rattle.guppy_feature_nodes.specs.Graphs.{FeatureGraphValue, IsFeatureGraph};
ghost use Rattle.guppy_feature_graph.specs.Queries.{IsQueryOf};
ghost use Rattle.guppy_feature_graph.specs.Views.{feature_graph_of};
ghost use Rattle.test_select_features.specs.Known.{is_known_extra};
ghost use Rattle.test_select_features.specs.Leading.{IsLeastBy, LeadsTo};
ghost use Rattle.test_select_features.specs.Starts.{IsStart, standard_of};

use crate::feature_ids::{feature_ids, package_ids};
use crate::included::features_in;
use guppy_feature_graph::laws::least;
use guppy_feature_graph::{
    FeatureGraph, FeatureGraphData, FeatureQuery, FeatureSet, StandardFeatures, feature_id_filter,
};
use guppy_package_graph::PackageGraph;
use std::alloc::{AllocError, Global};
use test_select_feature_laws::LineVerdict;
use test_select_feature_laws::laws::edges_lead_to_what_is_on;
use test_select_rules::FeaturesOn;
use workspace_record::{Feature, FeatureChoice, PlatformTable, Standard, WorkspaceRecord};

// `LineVerdict` is asked by a closure: a value that is lent as `&mut dyn FeatureLinkVisitor` inside a proved
// function is still seen to answer by its trait, but no longer to be the one that was lent.
/// The features that are on under a choice and a table, in ascending order: those that the feature graph
/// of the record's package graph leads to from the features of members that are standard ones of the
/// choice or extras, over the links behind which a line counts.
///
/// The work grows with the packages, features, entries, links, lines and extras, up to sorting and to
/// looking each feature of a member up among the extras by halving.
pub fn resolved_features(
    alloc: Global,
    record: &WorkspaceRecord,
    graph: &PackageGraph,
    choice: &FeatureChoice,
    table: &PlatformTable,
) -> Result<FeaturesOn, AllocError>
    requires kept { fault_of record.now ≡ None }
    requires graph { IsTableOf record.now.packages record.now.links record.now.workspace graph.now }
    requires known { All (λ f. is_known_extra record.now f ≡ true) choice.now.extras }
    ensures on { IfOk result (λ on. (f : FeatureValue) → Contains on f
        ↔ IsOn (rule_list record.now choice.now table.now) f) }
    ensures ascending { IfOk result (λ on. IsStrictlySortedBy feature_cmp on) }
{
    edges_lead_to_what_is_on();
    let features = features_led_to(alloc, graph, choice, table)?;
    FeaturesOn::of(features)
}

/// The features that the feature graph of the packages leads to by the choice.
fn features_led_to(
    alloc: Global,
    graph: &PackageGraph,
    choice: &FeatureChoice,
    table: &PlatformTable,
) -> Result<Vec<Feature>, AllocError>
    ensures { IfOk result (λ v. (g : FeatureGraphValue) × (g.rows ≡ graph.now) × IsFeatureGraph g
        × LeadsTo table.now g (IsStart g choice.now) v.items) }
{
    let data = FeatureGraphData::build(alloc, graph)?;
    reached_features(alloc, &data, choice, table)
}

/// The features that the graph leads to by the choice.
fn reached_features(
    alloc: Global,
    graph: &FeatureGraphData<'_>,
    choice: &FeatureChoice,
    table: &PlatformTable,
) -> Result<Vec<Feature>, AllocError>
    requires built { IsFeatureGraph graph.now }
    ensures { IfOk result (λ v. LeadsTo table.now graph.now (IsStart graph.now choice.now)
        v.items) }
{
    let query = query_by(alloc, FeatureGraph::of(graph), choice)?;
    let reached = reached_set(alloc, query, table)?;
    features_in(alloc, &reached)
}

/// The query forward from what the choice's filter takes of the features of members.
fn query_by<'g>(
    alloc: Global,
    graph: FeatureGraph<'g>,
    choice: &FeatureChoice,
) -> Result<FeatureQuery<'g>, AllocError>
    ensures { IfOk result (IsQueryOf (feature_graph_of graph.entry) Forward
        (IsStart (feature_graph_of graph.entry) choice.now)) }
{
    let package_ids = package_ids(alloc, &choice.extras)?;
    let mut extras = feature_ids(alloc, &choice.extras, &package_ids)?;
    extras.sort_unstable();
    let mut filter = feature_id_filter(standard_of(choice.standard), &extras);
    graph.query_workspace(alloc, &mut filter)
}

/// The standard features that a choice names.
fn standard_of(standard: Standard) -> StandardFeatures
    ensures { result ≡ standard_of standard }
{
    match standard {
        Standard::None => StandardFeatures::None,
        Standard::Default => StandardFeatures::Default,
        Standard::All => StandardFeatures::All,
    }
}

/// What the query leads to over the links behind which a line counts.
fn reached_set<'g>(
    alloc: Global,
    query: FeatureQuery<'g>,
    table: &PlatformTable,
) -> Result<FeatureSet<'g>, AllocError>
    ensures { IfOk result (IsLeastBy table.now query.entry) }
{
    least();
    let verdict = LineVerdict::new(alloc, table)?;
    query.resolve_with_fn(alloc, |_, link| verdict.accepts(link))
}
