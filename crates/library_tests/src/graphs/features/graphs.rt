//! What is asked of a feature graph whose packages are read from a record.

use crate::workspace::graph_of;
use guppy_feature_graph::FeatureGraphData;
use guppy_package_graph::PackageGraph;
use std::alloc::Global;
use std::process::Abort;

/// The feature `weak` of app names a feature of foo, which app requires in one line, and in another
/// where it is switched on.
pub(crate) const WEAK: &[u8] = br#"{
    "packages": [
        {
            "id": "app", "name": "app", "version": "1.0.0", "optional": ["foo"],
            "features": [{"name": "weak", "enables": ["foo?/std"]}]
        },
        {
            "id": "foo", "name": "foo", "version": "1.0.0",
            "features": [{"name": "std", "enables": []}]
        }
    ],
    "links": [{
        "from": "app", "to": "foo", "name": "foo",
        "lines": [{}, {"kind": "build", "optional": true}]
    }],
    "workspace": {"members": []}
}"#;

/// A question to a feature graph. It can be put where `can_ask` holds.
pub(crate) trait Question {
    type Answer;

    ghost can_ask: { Self → Type 0 };

    fn ask<R: Abort>(&mut self, rt: &R, alloc: Global, data: &FeatureGraphData<'_>) -> Self::Answer
        requires { can_ask self.old };
}

/// What the feature graph of `WEAK` answers.
pub(crate) fn answer_to<R: Abort, Q: Question>(rt: &R, alloc: Global, question: &mut Q) -> Q::Answer
    requires { Q.can_ask question.old }
{
    let packages = graph_of(rt, alloc, WEAK);
    answer_over(rt, alloc, &packages, question)
}

fn answer_over<R: Abort, Q: Question>(
    rt: &R,
    alloc: Global,
    packages: &PackageGraph,
    question: &mut Q,
) -> Q::Answer
    requires { Q.can_ask question.old }
{
    let data = FeatureGraphData::build(alloc, packages).expect(rt, "memory");
    question.ask(rt, alloc, &data)
}
