//! The packages over which the names in filters are matched.

ghost use Rattle.std.specs.Prelude.{◌≡◌, [], IfOk, IsTrue, map, string_bytes};
ghost use Rattle.numbered_graph.specs.Sets.{has};
ghost use Rattle.guppy_package_table.specs.Tables.{ids_of};
ghost use Rattle.guppy_package_graph.specs.Workspaces.{IsMemberPlace};
ghost use Rattle.nextest_filtering.specs.Contexts.{IsContextOf};
ghost use Rattle.nextest_filtering.specs.ContextViews.{AreNamesOf, listed_as};

use crate::context_names::{ContextNames, NamedBinary, NamedPackage};
use guppy_package_graph::{DependencyDirection, PackageGraph, PackageId, PackageSet};
use std::alloc::{AllocError, Global};
use std::marker::Model;

/// The packages whose names filters are matched against, their binaries and features, the features that
/// are said to be on, and the graph whose links `deps` and `rdeps` follow.
#[derive(Debug)]
pub struct ParseContext<'g> {
    graph: &'g PackageGraph,
    names: ContextNames,
    on: Vec<NamedPackage>,
}

// Written out, so that a function that lets one go takes one step.
impl Drop for ParseContext<'_> {
    fn drop(self) {
        let ParseContext {
            graph: _,
            names: _,
            on: _,
        } = self;
    }
}

impl<'g> Model for ParseContext<'g> {
    ghost use Rattle.nextest_filtering.specs.Contexts.{ContextValue};
    ghost use Rattle.nextest_filtering.specs.ContextViews.{features_in};

    ghost Value = { ContextValue };

    ghost view = { λ c. record { graph = c.graph.now; packages = c.names.packages.items; binaries = c.names.binaries.items; features = features_in c.names; on = c.on.items } };
}

impl<'g> ParseContext<'g> {
    /// The context of the members of a graph's workspace. No feature is said to be on.
    pub fn new(alloc: Global, graph: &'g PackageGraph) -> Result<ParseContext<'g>, AllocError>
        ensures members { IfOk result (IsContextOf graph.now graph.now (IsMemberPlace graph.now)) }
        ensures on { IfOk result (λ cx. cx.on ≡ []) }
    {
        let members = graph.resolve_workspace(alloc)?;
        let names = names_of(alloc, &members)?;
        let on = Vec::new(alloc);
        Ok(ParseContext { graph, names, on })
    }

    /// The context of the packages of a set, whose graph has the same package ids. No feature is said
    /// to be on.
    pub fn with_packages(
        alloc: Global,
        graph: &'g PackageGraph,
        packages: &PackageSet<'_>,
    ) -> Result<ParseContext<'g>, AllocError>
        requires same { ids_of graph.now.packages ≡ ids_of packages.now.graph.packages }
        ensures packages { IfOk result (IsContextOf graph.now packages.now.graph
            (λ v. IsTrue (has packages.now.included v))) }
        ensures on { IfOk result (λ cx. cx.on ≡ []) }
    {
        let names = names_of(alloc, packages)?;
        let on = Vec::new(alloc);
        Ok(ParseContext { graph, names, on })
    }

    /// The same, with features that are on, each by the id of its package and its name. Those of other
    /// packages are passed over where `feature` is looked up, and those that are off are none: a text
    /// is accepted alike whatever is on.
    pub fn with_features(
        alloc: Global,
        graph: &'g PackageGraph,
        packages: &PackageSet<'_>,
        on: &[(PackageId, String)],
    ) -> Result<ParseContext<'g>, AllocError>
        requires same { ids_of graph.now.packages ≡ ids_of packages.now.graph.packages }
        ensures packages { IfOk result (IsContextOf graph.now packages.now.graph
            (λ v. IsTrue (has packages.now.included v))) }
        ensures on { IfOk result (λ cx. cx.on ≡ map listed_as on.now) }
    {
        let names = names_of(alloc, packages)?;
        let on = features_on(alloc, on)?;
        Ok(ParseContext { graph, names, on })
    }

    /// The graph whose links are followed.
    pub fn graph(&self) -> &'g PackageGraph
        ensures graph { result.now ≡ self.now.graph }
    {
        self.graph
    }

    pub(crate) fn packages(&self) -> &[NamedPackage]
        ensures { result.now ≡ self.now.packages }
    {
        &self.names.packages
    }

    pub(crate) fn binaries(&self) -> &[NamedBinary]
        ensures { result.now ≡ self.now.binaries }
    {
        &self.names.binaries
    }

    pub(crate) fn features(&self) -> &[String]
        ensures { map string_bytes result.now ≡ self.now.features }
    {
        &self.names.features
    }

    pub(crate) fn on(&self) -> &[NamedPackage]
        ensures { result.now ≡ self.now.on }
    {
        &self.on
    }
}

/// The features, in memory of their own.
fn features_on(alloc: Global, on: &[(PackageId, String)]) -> Result<Vec<NamedPackage>, AllocError>
    ensures { IfOk result (λ v. v.items ≡ map listed_as on.now) }
{
    let mut features = Vec::new(alloc);
    for feature in on {
        features.push(NamedPackage::of(alloc, feature.0.repr(), feature.1.as_str())?)?;
    }
    Ok(features)
}

/// The packages of a set with their binaries and their features.
fn names_of(alloc: Global, packages: &PackageSet<'_>) -> Result<ContextNames, AllocError>
    ensures { IfOk result (AreNamesOf packages.now.graph
        (λ v. IsTrue (has packages.now.included v))) }
{
    let mut names = ContextNames {
        packages: Vec::new(alloc),
        binaries: Vec::new(alloc),
        features: Vec::new(alloc),
    };
    for member in packages.packages(DependencyDirection::Forward) {
        names.add(alloc, member)?;
    }
    Ok(names)
}
