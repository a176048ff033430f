//! Rows of sources, targets and requirements.

ghost use Rattle.std.specs.Prelude.{◌↔◌, All, IsTrue};
ghost use Rattle.guppy_package_parts.specs.Lines.{IsLineAt};

use crate::packages::parts::platforms::platforms_of;
use crate::packages::parts::printing::{add_half, add_target, tell_source, tell_status};
use guppy_package_parts::{
    BuildTarget, DependencyKind, DependencyReq, LinkRow, PackagePublish, PackageRow, PackageSource,
    PlatformStatus,
};
use row_program::{Answers, Row, RowFault, RowRunner, record_under};
use serde_json::Value;
use std::alloc::Global;

/// Rows of one text each, under `source`, or of a record whose packages or links are looked at.
#[derive(Drop)]
pub(crate) struct PartRows;

impl RowRunner for PartRows {
    fn inputs(&self) -> &'static [&'static str] {
        &["source", "record", "kind", "feature", "platforms"]
    }

    fn run_row(
        &mut self,
        alloc: Global,
        row: Row<'_>,
        answers: &mut Answers,
    ) -> Result<(), RowFault> {
        if let Some(text) = row.get("source").and_then(Value::as_str) {
            tell_source(text, answers);
            return Ok(());
        }
        let record = record_under(alloc, row)?;
        for package in &record.packages {
            tell_package(package, answers);
        }
        for link in &record.links {
            tell_link(alloc, link, row, answers)?;
        }
        tell_joined(alloc, &record.links, answers)
    }
}

/// The status of all lines of all links.
fn tell_joined(alloc: Global, links: &[LinkRow], answers: &mut Answers) -> Result<(), RowFault> {
    let mut lines = Vec::new(alloc);
    for (number, link) in links.iter().enumerate() {
        for line in 0..link.lines.len() {
            lines.push((number, line))?;
        }
    }
    if are_there(links, &lines) {
        answers.begin("joined");
        add_half(PlatformStatus::over(links, &lines), answers);
    }
    Ok(())
}

fn are_there(links: &[LinkRow], lines: &[(usize, usize)]) -> bool
    ensures { IsTrue result ↔ All (IsLineAt links.now) lines.now }
{
    lines.iter().all(|line| is_there(links, *line))
}

fn is_there(links: &[LinkRow], line: (usize, usize)) -> bool
    ensures { IsTrue result ↔ IsLineAt links.now line }
{
    match links.get(line.0) {
        Some(link) => line.1 < link.lines.len(),
        None => false,
    }
}

fn tell_package(package: &PackageRow, answers: &mut Answers) {
    let source = PackageSource::of(package, None);
    answers.show("from", &source);
    answers.show("local", &source.is_local());
    let publish = PackagePublish::of(package);
    answers.show("publish", &"unrestricted");
    answers.part(" ", &publish.is_unrestricted());
    answers.part(", never ", &publish.is_never());
    answers.part(", crates-io ", &publish.can_publish_to_crates_io());
    answers.part(", other ", &publish.can_publish_to("other"));
    answers.begin("targets");
    for target in &package.targets {
        add_target(BuildTarget::of(target), answers);
    }
}

fn tell_link(
    alloc: Global,
    link: &LinkRow,
    row: Row<'_>,
    answers: &mut Answers,
) -> Result<(), RowFault> {
    let kind = match row.get("kind").and_then(Value::as_str) {
        Some("dev") => DependencyKind::Development,
        Some("build") => DependencyKind::Build,
        _ => DependencyKind::Normal,
    };
    let req = DependencyReq::of(link, kind);
    answers.begin("features");
    for name in req.features() {
        answers.add(&name);
        answers.add(&" ");
    }
    answers.show("present", &req.is_present());
    tell_status("status", req.status(), answers);
    tell_status("default_features", req.default_features(), answers);
    tell_status("no_default_features", req.no_default_features(), answers);
    if let Some(feature) = row.get("feature").and_then(Value::as_str) {
        tell_status("feature_status", req.feature_status(feature), answers);
    }
    let platforms = platforms_of(alloc, row)?;
    let required = req.status().required_on(&platforms);
    answers.keep("required", format!(in alloc; "{required:?}"));
    let enabled = req.status().enabled_on(&platforms);
    answers.keep("enabled", format!(in alloc; "{enabled:?}"));
    Ok(())
}
