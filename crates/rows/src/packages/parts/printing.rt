//! What came of a row.

use guppy_package_parts::{
    BuildTarget, BuildTargetId, BuildTargetKind, EnabledStatus, ExternalSource, GitReq,
    PackageSource, PlatformStatus,
};
use row_program::Answers;

/// Tells what the text of a source says.
pub(crate) fn tell_source(text: &str, answers: &mut Answers) {
    match ExternalSource::new(text) {
        None => answers.show("parsed", &"none"),
        Some(ExternalSource::Registry(registry)) => {
            answers.show("parsed", &"registry ");
            answers.add(&registry);
        }
        Some(ExternalSource::Sparse(registry)) => {
            answers.show("parsed", &"sparse ");
            answers.add(&registry);
        }
        Some(
            ExternalSource::Git {
                repository,
                req,
                resolved,
            },
        ) => {
            let (request, name) = match req {
                GitReq::Branch(name) => (", branch ", name),
                GitReq::Tag(name) => (", tag ", name),
                GitReq::Rev(name) => (", rev ", name),
                GitReq::Default => (", default", ""),
            };
            answers.show("parsed", &"git");
            answers.part(" ", &repository);
            answers.part(request, &name);
            answers.part(", at ", &resolved);
        }
    }
    let source = PackageSource::External(text);
    if let Some(external) = source.parse_external() {
        answers.show("printed", &external);
    }
    answers.show("crates_io", &source.is_crates_io());
}

/// Adds the line of a target.
pub(crate) fn add_target(target: BuildTarget<'_>, answers: &mut Answers) {
    let sort = match target.id() {
        BuildTargetId::Library => "library",
        BuildTargetId::BuildScript => "build script",
        BuildTargetId::Binary(_) => "binary",
        BuildTargetId::Example(_) => "example",
        BuildTargetId::Test(_) => "test",
        BuildTargetId::Benchmark(_) => "benchmark",
    };
    answers.add(&sort);
    answers.part(" ", &target.id().name().unwrap_or("unnamed"));
    answers.add(&" as");
    match target.kind() {
        BuildTargetKind::ProcMacro => answers.add(&" proc-macro"),
        BuildTargetKind::Binary => answers.add(&" binary"),
        BuildTargetKind::LibraryOrExample(crate_types) => {
            for crate_type in crate_types {
                answers.part(" ", crate_type);
            }
        }
    }
    answers.add(&"\n");
}

/// Tells both halves of a status.
pub(crate) fn tell_status(key: &'static str, status: EnabledStatus<'_>, answers: &mut Answers) {
    answers.begin(key);
    add_half(status.required_status(), answers);
    answers.add(&"; ");
    add_half(status.optional_status(), answers);
}

/// Adds where something is on.
pub(crate) fn add_half(status: PlatformStatus<'_>, answers: &mut Answers) {
    match status {
        PlatformStatus::Never => answers.add(&"never"),
        PlatformStatus::Always => answers.add(&"always"),
        PlatformStatus::PlatformDependent { eval } => {
            answers.add(&"on");
            for spec in eval.target_specs() {
                answers.part(" ", &spec);
            }
        }
    }
}
