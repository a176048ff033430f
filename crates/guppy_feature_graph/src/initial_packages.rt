//! The packages from whose features links are followed.

ghost use Rattle.std.specs.Prelude.{◌≡◌, ℕ, List, map};
ghost use Rattle.guppy_feature_graph.specs.FeaturesFor.{HasInitial};
ghost use Rattle.guppy_feature_graph.specs.InitialViews.{initial_packages_left};
ghost use Rattle.guppy_feature_graph.specs.Queries.{AreInitials};

use crate::feature_query::FeatureQuery;
use crate::feature_set::FeatureSet;
use crate::features_for::has_feature_of;
use guppy_package_graph::{AllPackages, PackageMetadata};
use list_facts::write_entries;
use std::fmt;

/// The packages that have a feature in a set, each once in the order of the record.
#[derive(Clone, Copy)]
pub struct InitialPackages<'g, 'a> {
    initials: &'a FeatureSet<'g>,
    packages: AllPackages<'g>,
}

impl<'g> FeatureQuery<'g> {
    /// The packages that have a feature among the initials, each once in the order of the record.
    pub fn initial_packages(&self) -> InitialPackages<'g, '_>
        ensures packages { (places : List ℕ) × AreInitials (HasInitial self.now) places
            × (initial_packages_left result ≡ map (λ v. (self.now.graph.rows, v)) places) }
    {
        let initials = self.initials();
        let packages = self.graph().package_graph().packages();
        InitialPackages { initials, packages }
    }
}

impl<'g> Iterator for InitialPackages<'g, '_> {
    type Item = PackageMetadata<'g>;

    ghost use Rattle.std.specs.Iterator.{YieldsFirstBy, item_count};
    ghost use Rattle.guppy_package_graph.specs.Views.{seen};
    ghost use Rattle.guppy_feature_graph.specs.InitialViews.{initial_packages_left};

    ghost next_gives = { YieldsFirstBy seen initial_packages_left };

    ghost remaining = { item_count initial_packages_left };

    fn next(&mut self) -> Option<PackageMetadata<'g>> {
        while let Some(package) = self.packages.next() {
            if has_feature_of(self.initials, package.row()) {
                return Some(package);
            }
        }
        None
    }
}

/// Lists what is still to come.
impl fmt::Debug for InitialPackages<'_, '_> {
    fn fmt<W: fmt::Write>(&self, f: &mut fmt::Formatter<W>) -> fmt::Result {
        write_entries(f, *self)
    }
}
