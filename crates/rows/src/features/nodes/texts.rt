//! What a feature graph holds, as texts.

use guppy_feature_nodes::{FeatureEdge, FeatureGraphData, SlashForm};
use guppy_package_graph::{FeatureBuildStage, FeatureGraphWarning};
use row_program::Answers;

/// Tells the features, in the order of their numbers, and the edges: both ends, why, and the lines behind.
pub(crate) fn tell_nodes_and_edges(data: &FeatureGraphData<'_>, answers: &mut Answers) {
    answers.begin("nodes");
    for node in 0..data.feature_count() {
        add_end("; ", data, node, answers);
    }
    answers.begin("edges");
    for edge in data.edges() {
        add_end("; ", data, edge.from, answers);
        add_end(" > ", data, edge.to, answers);
        add_form(data, &edge.edge, answers);
        for (link, line) in edge.edge.lines() {
            answers.part(" ", link);
            answers.part(".", line);
        }
    }
}

fn add_end(between: &str, data: &FeatureGraphData<'_>, number: usize, answers: &mut Answers) {
    if number < data.feature_count() {
        answers.part(between, &data.feature_at(number));
    } else {
        answers.part(between, &"nothing");
    }
}

fn add_form(data: &FeatureGraphData<'_>, edge: &FeatureEdge, answers: &mut Answers) {
    match edge {
        FeatureEdge::FeatureToBase => answers.add(&" to base"),
        FeatureEdge::DependenciesSection(_) => answers.add(&" dependency"),
        FeatureEdge::NamedFeature => answers.add(&" feature"),
        FeatureEdge::NamedFeatureDepColon => answers.add(&" dep"),
        FeatureEdge::NamedFeatureWithSlash(SlashForm::Strong(_)) => answers.add(&" strong"),
        FeatureEdge::NamedFeatureWithSlash(SlashForm::Weak(weak)) => {
            add_end(" weak (", data, weak.index().node(), answers);
            answers.add(&")");
        }
    }
}

/// Tells the warnings, each with the stage at which it came.
pub(crate) fn tell_warnings(data: &FeatureGraphData<'_>, answers: &mut Answers) {
    answers.begin("warnings");
    for warning in data.build_warnings() {
        match warning {
            FeatureGraphWarning::MissingFeature {
                stage,
                package_id,
                feature_name,
            } => {
                answers.part("; ", package_id);
                answers.part(" lacks ", feature_name);
                add_stage(stage, answers);
            }
            FeatureGraphWarning::SelfLoop {
                package_id,
                feature_name,
            } => {
                answers.part("; ", package_id);
                answers.part("/", feature_name);
                answers.add(&" names itself");
            }
        }
    }
}

fn add_stage(stage: &FeatureBuildStage, answers: &mut Answers) {
    match stage {
        FeatureBuildStage::AddNamedFeatureEdges {
            package_id,
            from_feature,
        } => {
            answers.part(" for feature ", package_id);
            answers.part("/", from_feature);
        }
        FeatureBuildStage::AddDependencyEdges {
            package_id,
            dep_name,
        } => {
            answers.part(" for dependency ", package_id);
            answers.part(":", dep_name);
        }
    }
}
