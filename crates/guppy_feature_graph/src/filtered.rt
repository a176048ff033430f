//! Features of packages that a filter takes, as queries.

ghost use Rattle.std.specs.Prelude.{◌≡◌, true, Contains, IfOk, OnErr};
ghost use Rattle.guppy_package_graph.specs.Visits.{Chain, SameSteps};
ghost use Rattle.guppy_package_graph.specs.Workspaces.{IsMemberPlace};
ghost use Rattle.guppy_package_table.specs.Tables.{ids_of};
ghost use Rattle.guppy_package_parts.specs.declared.dependency_direction.DependencyDirection.TheVariants.{Forward};
ghost use Rattle.guppy_feature_graph.specs.Judging.{AreJudged, Judged, shown_features};
ghost use Rattle.guppy_feature_graph.specs.PackageFeatures.{IsOfPackage, IsOfSet};
ghost use Rattle.guppy_feature_graph.specs.Queries.{IsQueryOf};
ghost use Rattle.guppy_feature_graph.specs.Views.{feature_graph_of};

use crate::feature_filter::FeatureFilter;
use crate::feature_graph::FeatureGraph;
use crate::feature_query::FeatureQuery;
use crate::feature_set::FeatureSet;
use crate::package_features::features_of_packages;
use crate::taking::take_by_filter;
use guppy_package_graph::{DependencyDirection, PackageSet};
use std::alloc::{AllocError, Global};

impl<'g> FeatureGraph<'g> {
    /// A query, to what they lead to, from the features of the workspace's packages that the filter
    /// takes. It is asked about each of these features once, after all memory was taken.
    pub fn query_workspace<F: FeatureFilter>(
        &self,
        alloc: Global,
        filter: &mut F,
    ) -> Result<FeatureQuery<'g>, AllocError>
        requires { F.can_accept filter.old }
        ensures ok { IfOk result
            (λ q. (judged : Judged)
            × AreJudged (IsOfPackage (feature_graph_of self.now)
            (IsMemberPlace (feature_graph_of self.now).rows)) judged
            × Chain (F.steps filter.old) (F.state filter.old)
            (shown_features (feature_graph_of self.now) judged) (F.state filter.new)
            × IsQueryOf (feature_graph_of self.now) Forward (λ v. Contains judged (v, true)) q) }
        ensures same { SameSteps (F.steps filter.old) (F.steps filter.new) }
        ensures can { F.can_accept filter.new }
        ensures err { OnErr result (filter.new ≡ filter.old) }
    {
        let members = self.package_graph().resolve_workspace(alloc)?;
        query_by_filter(alloc, self, &members, DependencyDirection::Forward, filter)
    }
}

/// A query from the features of a set's packages that the filter takes.
pub(crate) fn query_by_filter<'g, F: FeatureFilter>(
    alloc: Global,
    graph: &FeatureGraph<'g>,
    packages: &PackageSet<'_>,
    direction: DependencyDirection,
    filter: &mut F,
) -> Result<FeatureQuery<'g>, AllocError>
    requires packages { ids_of packages.now.graph.packages
        ≡ ids_of (feature_graph_of graph.now).rows.packages }
    requires can { F.can_accept filter.old }
    ensures ok { IfOk result
        (λ q. (judged : Judged)
        × AreJudged (IsOfSet (feature_graph_of graph.now) packages.now.included) judged
        × Chain (F.steps filter.old) (F.state filter.old)
        (shown_features (feature_graph_of graph.now) judged) (F.state filter.new)
        × IsQueryOf (feature_graph_of graph.now) direction (λ v. Contains judged (v, true)) q) }
    ensures same { SameSteps (F.steps filter.old) (F.steps filter.new) }
    ensures can { F.can_accept filter.new }
    ensures err { OnErr result (filter.new ≡ filter.old) }
{
    let wanted = features_of_packages(alloc, graph, packages)?;
    match take_by_filter(alloc, graph, &wanted, filter) {
        Ok(taken) => {
            let initials = FeatureSet::of(*graph, taken.included);
            FeatureQuery::found(initials, direction, taken.starts)
        }
        Err(refused) => Err(refused),
    }
}
