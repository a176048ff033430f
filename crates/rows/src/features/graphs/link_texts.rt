//! What a link says of itself.

use guppy_feature_graph::{ConditionalLink, FeatureLinkContext, LinkDeclarations};
use guppy_package_graph::{DependencyDirection, DependencyKind, PlatformStatus};
use std::alloc::{AllocError, Global};

/// The ends of a link, the lines that it stands on, their links, and whether it starts at an initial.
pub(crate) fn link_text(
    alloc: Global,
    cx: &FeatureLinkContext<'_>,
    link: ConditionalLink<'_>,
) -> Result<String, AllocError> {
    let (from, to) = link.endpoints();
    let (from, to) = (from.feature_id(), to.feature_id());
    let declared = match link.declarations() {
        LinkDeclarations::Unsplit => "whole",
        LinkDeclarations::Required => "required",
        LinkDeclarations::Optional => "optional",
    };
    let is_forward = cx.direction() == DependencyDirection::Forward;
    let start = match (cx.starts_from_initial(&link), is_forward) {
        (true, true) => ", leaves an initial",
        (true, false) => ", enters an initial",
        (false, _) => "",
    };
    let kinds = kinds_text(alloc, link)?;
    format!(in alloc; "{from} > {to} {declared}: {kinds}{start}")
}

fn kinds_text(alloc: Global, link: ConditionalLink<'_>) -> Result<String, AllocError> {
    let mut text = String::new(alloc);
    for (kind, status) in [
        ("normal", link.normal()),
        (", build", link.build()),
        (", dev", link.status_for_kind(DependencyKind::Development)),
    ] {
        let word = match &status {
            PlatformStatus::Never => "never",
            PlatformStatus::Always => "always",
            PlatformStatus::PlatformDependent { .. } => "on",
        };
        write!(text, "{kind} {word}")?;
        if let PlatformStatus::PlatformDependent { eval } = status {
            for spec in eval.target_specs() {
                write!(text, " {spec}")?;
            }
        }
    }
    let only = if link.dev_only() { ", dev only" } else { "" };
    write!(text, "{only}, links")?;
    for package_link in link.package_links() {
        write!(text, " {}", package_link.number())?;
    }
    Ok(text)
}
