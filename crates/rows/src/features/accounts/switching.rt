//! What is on by the rules, in the graphs of packages and of features.

use feature_account::{Feature, Label, Premises, Rule};
use feature_account_making::account_of;
use guppy_feature_graph::{
    FeatureGraph, FeatureGraphData, FeatureId, FeatureLabel, FeatureQuery, FeatureSet,
};
use guppy_package_graph::{Error, PackageGraph, PackageId};
use row_program::{Answers, Question, RowFault, add_feature};
use std::alloc::{AllocError, Global};
use test_select_feature_laws::LineVerdict;
use test_select_features::{dependency_order, switched_on};
use test_select_rules::FeaturesOn;
use workspace_record::{PlatformTable, WorkspaceRecord};

/// What is `on`, and in the graphs of the record: the links that are `switched` on, each with how many
/// lines, the `order` of the packages, and what is `resolved` from the rules without premises, which is
/// what is on.
pub(crate) fn tell_switching(
    alloc: Global,
    question: Question<'_>,
    rules: &[Rule],
    answers: &mut Answers,
) -> Result<(), RowFault> {
    let on = features_on(alloc, rules)?;
    answers.begin("on");
    for feature in on.as_slice() {
        answers.part(" ", &"");
        add_feature(feature, answers);
    }
    let WorkspaceRecord {
        packages,
        links,
        workspace,
        ..
    } = question.record.copy(alloc)?;
    match PackageGraph::from_records(alloc, packages, links, workspace) {
        Ok(graph) => tell_graph(alloc, &graph, question.table, rules, &on, answers)?,
        Err(error) => answers.show("refused", &error),
    }
    Ok(())
}

/// What the account of what is on concludes.
fn features_on(alloc: Global, rules: &[Rule]) -> Result<FeaturesOn, AllocError> {
    let account = account_of(alloc, rules)?;
    let mut features = Vec::new(alloc);
    for number in &account.rules {
        if let Some(rule) = rules.get(*number) {
            features.push(rule.conclusion.copy(alloc)?)?;
        }
    }
    FeaturesOn::of(features)
}

fn tell_graph(
    alloc: Global,
    graph: &PackageGraph,
    table: &PlatformTable,
    rules: &[Rule],
    on: &FeaturesOn,
    answers: &mut Answers,
) -> Result<(), RowFault> {
    match switched_on(alloc, graph, on, table) {
        Ok(switched) => {
            answers.begin("switched");
            for link in switched.link_rows() {
                answers.part("; ", &link.from);
                answers.part(" ", &link.name);
                answers.part(" ", &link.to);
                answers.part(": ", &link.lines.len());
            }
        }
        Err(refused) => answers.keep("switched", Err(refused)),
    }
    answers.list("order", dependency_order(alloc, graph, on, table));
    let data = FeatureGraphData::build(alloc, graph)?;
    tell_features(alloc, &data, table, rules, on.as_slice(), answers)
}

/// Asks from the features that have no premise, each of the package with the id at its place.
fn tell_features(
    alloc: Global,
    data: &FeatureGraphData<'_>,
    table: &PlatformTable,
    rules: &[Rule],
    on: &[Feature],
    answers: &mut Answers,
) -> Result<(), RowFault> {
    let ids = start_ids(alloc, rules)?;
    match query_from(alloc, FeatureGraph::of(data), rules, &ids) {
        Ok(query) => tell_reached(alloc, query, table, on, answers)?,
        Err(error) => answers.show("resolved", &error),
    }
    Ok(())
}

fn query_from<'g>(
    alloc: Global,
    graph: FeatureGraph<'g>,
    rules: &[Rule],
    package_ids: &[PackageId],
) -> Result<FeatureQuery<'g>, Error> {
    let mut starts = Vec::with_capacity(alloc, package_ids.len())?;
    for (rule, package_id) in rules.iter().zip(package_ids) {
        starts.push(FeatureId::new(package_id, label_of(&rule.conclusion.label)))?;
    }
    graph.query_forward(alloc, &starts)
}

/// The ids of the packages of what has no premise.
fn start_ids(alloc: Global, rules: &[Rule]) -> Result<Vec<PackageId>, AllocError> {
    let mut ids = Vec::new(alloc);
    for rule in rules {
        if let Premises::None = rule.premises {
            let package = String::from_str(alloc, rule.conclusion.package.as_str())?;
            ids.push(PackageId::new(package))?;
        }
    }
    Ok(ids)
}

fn label_of(label: &Label) -> FeatureLabel<'_> {
    match label {
        Label::Base => FeatureLabel::Base,
        Label::Named(name) => FeatureLabel::Named(name.as_str()),
        Label::Dep(name) => FeatureLabel::OptionalDependency(name.as_str()),
    }
}

fn tell_reached(
    alloc: Global,
    query: FeatureQuery<'_>,
    table: &PlatformTable,
    on: &[Feature],
    answers: &mut Answers,
) -> Result<(), AllocError> {
    let mut verdict = LineVerdict::new(alloc, table)?;
    let included = query.resolve_with(alloc, &mut verdict)?;
    tell_included(alloc, on, &included, answers)
}

/// Tells what is on, with a `?` before what the set lacks, and how many features more the set has.
fn tell_included(
    alloc: Global,
    on: &[Feature],
    included: &FeatureSet<'_>,
    answers: &mut Answers,
) -> Result<(), AllocError> {
    answers.begin("resolved");
    for feature in on {
        let package_id = PackageId::new(String::from_str(alloc, feature.package.as_str())?);
        let id = FeatureId::new(&package_id, label_of(&feature.label));
        let is_included = matches!(included.contains(id), Ok(true));
        answers.part(" ", if is_included { &"" } else { &"?" });
        add_feature(feature, answers);
    }
    let more = included.len().saturating_sub(on.len());
    if more > 0 {
        answers.part(" and ", &more);
        answers.add(&" more");
    }
    Ok(())
}
