//! The features of a set, package by package.

ghost use Rattle.std.specs.Prelude.{◌≡◌, IfOk, length, map};
ghost use Rattle.numbered_graph.specs.ListedViews.{in_direction};
ghost use Rattle.guppy_package_table.specs.Tables.{id_at};
ghost use Rattle.guppy_package_graph.specs.Directions.{direction_of};
ghost use Rattle.guppy_package_graph.specs.SetValues.{listed};
ghost use Rattle.guppy_feature_demands.specs.Nodes.{nodes_of};
ghost use Rattle.guppy_feature_nodes.specs.Graphs.{AreListed};
ghost use Rattle.guppy_feature_graph.specs.FeaturesFor.{AnswersStarts, ListEach, ListsPackages};
ghost use Rattle.guppy_feature_graph.specs.PackageFeatures.{IsOfFeature, IsPackageSetOf};

use crate::feature_query::FeatureQuery;
use crate::feature_set::FeatureSet;
use crate::features_for::list_in;
use crate::packages_of::packages_of;
use guppy_feature_views::FeatureList;
use guppy_package_graph::{DependencyDirection, Error, PackageId, PackageSet};
use std::alloc::{AllocError, Global};

impl<'g> FeatureSet<'g> {
    /// For each package that has a feature in the set, the list of these features: the packages in the
    /// order of `packages`, the labels ascending.
    pub fn packages_with_features(
        &self,
        alloc: Global,
        direction: DependencyDirection,
    ) -> Result<Vec<FeatureList<'g>>, AllocError>
        ensures lists { IfOk result (λ lists. ListsPackages self.now direction lists.items) }
    {
        let packages = packages_of(alloc, self)?;
        lists_for(alloc, self, &packages, direction)
    }
}

// The list of each of the packages that have a feature in the set.
fn lists_for<'g>(
    alloc: Global,
    set: &FeatureSet<'g>,
    packages: &PackageSet<'g>,
    direction: DependencyDirection,
) -> Result<Vec<FeatureList<'g>>, AllocError>
    requires packages { IsPackageSetOf set.now.graph (IsOfFeature set.now) packages.now }
    requires sized { length set.now.included ≡ length set.now.graph.nodes }
    requires features { set.now.graph.nodes ≡ nodes_of set.now.graph.rows.packages }
    requires listed { AreListed set.now.graph }
    ensures { IfOk result (λ lists. ListEach set.now
        (map (id_at packages.now.graph)
        (in_direction (direction_of direction) (listed packages.now))) lists.items) }
{
    let mut lists: Vec<FeatureList<'g>> = Vec::new(alloc);
    let mut left = packages.packages(direction);
    while let Some(package) = left.next() {
        let list = list_in(alloc, set, package)?;
        lists.push(list)?;
    }
    Ok(lists)
}

impl FeatureQuery<'_> {
    /// Whether a feature of the package is an initial.
    pub fn starts_from_package(&self, package_id: &PackageId) -> Result<bool, Error>
        ensures answer { AnswersStarts self.now package_id.now result }
    {
        self.initials().contains_package(package_id)
    }
}
