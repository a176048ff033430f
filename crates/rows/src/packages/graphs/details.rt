//! What the package under `package` says of itself, and how it stands to the one under `target`.

use crate::ids::id_in;
use crate::packages::graphs::told_sets::{direction_in, tell_set};
use guppy_package_graph::{Error, PackageGraph, PackageLink, PackageMetadata};
use guppy_package_parts::{BuildTargetId, DependencyDirection, PackageId};
use guppy_package_table::PackageDetails;
use row_program::{Answers, Row, RowFault};
use std::alloc::{AllocError, Global};

pub(crate) fn tell_package(
    alloc: Global,
    row: Row<'_>,
    graph: &PackageGraph,
    answers: &mut Answers,
) -> Result<(), RowFault> {
    let Some(id) = id_in(alloc, row, "package")? else {
        return Ok(());
    };
    match graph.metadata(&id) {
        Ok(package) => {
            tell_found(package, answers);
            tell_links(alloc, package, direction_in(row), answers)?;
        }
        Err(error) => {
            answers.show("found", &error);
            answers.show("link_to", &error);
        }
    }
    if let Some(target) = id_in(alloc, row, "target")? {
        tell_two(alloc, graph, &id, &target, answers)?;
    }
    Ok(())
}

fn tell_found(package: PackageMetadata<'_>, answers: &mut Answers) {
    let source = package.source();
    answers.show("found", package.id());
    answers.part(", ", &package.name());
    answers.part(" ", package.version());
    answers.part(", from ", &source);
    answers.part(", member ", &package.in_workspace());
    answers.show("source", &"workspace");
    answers.part(" ", &source.is_workspace());
    answers.part(" ", &source.workspace_path().unwrap_or("-"));
    answers.part(", path ", &source.is_path());
    answers.part(", local ", &source.local_path().unwrap_or("-"));
    answers.show("kinds", &"proc-macro");
    answers.part(" ", &package.is_proc_macro());
    answers.part(", build script ", &package.has_build_script());
    answers.part(", default ", &package.has_default_feature());
    answers.part(", published ", &!package.publish().is_never());
    tell_texts(&package, answers);
    tell_targets(&package, answers);
}

/// The texts that a manifest may leave out, in the order in which `cargo metadata` gives them, and the lists.
fn tell_texts(package: &PackageDetails<'_>, answers: &mut Answers) {
    answers.begin("texts");
    for text in [
        package.description(),
        package.license(),
        package.license_file(),
        package.readme(),
        package.repository(),
        package.homepage(),
        package.documentation(),
        package.links(),
        package.default_run(),
        package.rust_version(),
        package.metadata_table(),
        Some(package.manifest_path()),
        Some(package.edition()),
    ] {
        answers.part(" ", &text.unwrap_or("-"));
    }
    answers.begin("lists");
    for texts in [package.authors(), package.categories(), package.keywords()] {
        for text in texts {
            answers.part(" ", text);
        }
        answers.add(&";");
    }
}

/// The features and targets, and what Cargo does with the library where nothing else is said.
fn tell_targets(package: &PackageDetails<'_>, answers: &mut Answers) {
    answers.begin("features");
    for name in package.named_features() {
        answers.part(" ", &name);
    }
    answers.begin("targets");
    for target in package.build_targets() {
        answers.part(" ", &target.name());
    }
    match package.build_target(&BuildTargetId::Library) {
        Some(library) => {
            answers.show("library", &library.name());
            answers.show("library_defaults", &"doc");
            answers.part(" ", &library.doc_by_default());
            answers.part(", doctest ", &library.doctest_by_default());
            answers.part(", test ", &library.test_by_default());
        }
        None => {
            answers.show("library", &"none");
            answers.show("library_defaults", &"none");
        }
    }
    match package.build_target(&BuildTargetId::Binary("x")) {
        Some(binary) => answers.show("binary_x", &binary.name()),
        None => answers.show("binary_x", &"none"),
    }
}

/// The links of the package, and the package alone as a query and as a set.
fn tell_links(
    alloc: Global,
    package: PackageMetadata<'_>,
    direction: DependencyDirection,
    answers: &mut Answers,
) -> Result<(), AllocError> {
    answers.begin("links");
    for link in package.direct_links() {
        answers.part(" ", &link.number());
    }
    answers.begin("reverse_links");
    for link in package.reverse_direct_links() {
        answers.part(" ", &link.number());
    }
    tell_set(alloc, "alone", package.to_package_set(alloc), answers);
    let reached = package.to_package_query(alloc, direction)?.resolve(alloc);
    tell_set(alloc, "from_one", reached, answers);
    Ok(())
}

/// Whether one package depends on the other, and the first link from one to the other, and back.
fn tell_two(
    alloc: Global,
    graph: &PackageGraph,
    a: &PackageId,
    b: &PackageId,
    answers: &mut Answers,
) -> Result<(), AllocError> {
    if let Ok(package) = graph.metadata(a) {
        tell_link("link_to", package.link_to(b), answers);
        tell_link("link_from", package.link_from(b), answers);
    }
    answers.told("depends", graph.depends_on(alloc, a, b));
    answers.told("directly", graph.directly_depends_on(a, b));
    answers.told("cyclic", graph.cycles(alloc)?.is_cyclic(a, b));
    // Asked twice, and of another package between.
    let mut cache = graph.new_depends_cache(alloc)?;
    answers.told("depends", cache.depends_on(alloc, a, b));
    let _between = cache.depends_on(alloc, b, b);
    answers.told("depends", cache.depends_on(alloc, a, b));
    Ok(())
}

fn tell_link(
    key: &'static str,
    found: Result<Option<PackageLink<'_>>, Error>,
    answers: &mut Answers,
) {
    match found {
        Ok(Some(link)) => {
            let (from, to) = link.endpoints();
            answers.show(key, from.id());
            answers.part(" to ", to.id());
            answers.part(" as ", &link.dep_name());
        }
        Ok(None) => answers.show(key, &"none"),
        Err(error) => answers.show(key, &error),
    }
}
