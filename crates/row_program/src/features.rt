//! Features, as rows tell of them.

use crate::answer::Answers;
use workspace_record::{Feature, Label};

/// Adds a feature: `app`, `app/full` or `app/dep:util`.
pub fn add_feature(feature: &Feature, answers: &mut Answers) {
    answers.add(&feature.package);
    match &feature.label {
        Label::Base => {}
        Label::Named(name) => {
            answers.add(&"/");
            answers.add(name);
        }
        Label::Dep(name) => {
            answers.add(&"/dep:");
            answers.add(name);
        }
    }
}
