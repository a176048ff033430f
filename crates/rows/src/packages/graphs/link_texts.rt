//! What a link says of itself.

use guppy_package_graph::{PackageLink, PackageLinkContext};
use guppy_package_parts::DependencyKind;
use std::alloc::{AllocError, Global};

/// The ends of a link, its names, its requirement and its kinds.
pub(crate) fn link_text(
    alloc: Global,
    cx: &PackageLinkContext<'_>,
    link: PackageLink<'_>,
) -> Result<String, AllocError> {
    let (from, to) = link.endpoints();
    let (from, to) = (from.id(), to.id());
    let place = link.path().unwrap_or("no path");
    let registry = link.registry().unwrap_or("no registry");
    let (name, rust_name) = (link.dep_name(), link.resolved_name());
    let requirement = link.version_req();
    let lines = link.lines().len();
    let normal = link.normal().is_present();
    let build = link.build().is_present();
    let dev = link.dev().is_present();
    let of_kind = link.req_for_kind(DependencyKind::Development).is_present();
    let dev_only = link.dev_only();
    let is_start = cx.starts_from_initial(link);
    format!(in alloc;
        "{from} to {to}, {place}, {registry}, {name} {rust_name} {requirement}, {lines} lines, normal {normal}, build {build}, dev {dev} {of_kind}, dev only {dev_only}, from initial {is_start}"
    )
}
