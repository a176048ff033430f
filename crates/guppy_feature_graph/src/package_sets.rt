//! Packages, sets of packages and queries from packages, as features of a graph.

ghost use Rattle.std.specs.Prelude.{◌≡◌, true, Contains, IfOk, OnErr, map};
ghost use Rattle.guppy_package_graph.specs.Finding.{IsNamed};
ghost use Rattle.guppy_package_graph.specs.Views.{graph_of, place_of};
ghost use Rattle.guppy_package_graph.specs.Visits.{Chain, SameSteps};
ghost use Rattle.guppy_package_table.specs.Tables.{id_at, ids_of};
ghost use Rattle.guppy_feature_demands.specs.IdViews.{id_view};
ghost use Rattle.guppy_feature_graph.specs.Judging.{AreJudged, Judged, shown_features};
ghost use Rattle.guppy_feature_graph.specs.PackageFeatures.{IsDefaultId, IsOfPackage, IsOfSet};
ghost use Rattle.guppy_feature_graph.specs.Queries.{IsQueryOf};
ghost use Rattle.guppy_feature_graph.specs.Sets.{IsSetOf};
ghost use Rattle.guppy_feature_graph.specs.Views.{feature_graph_of};

use crate::feature_filter::FeatureFilter;
use crate::feature_graph::FeatureGraph;
use crate::feature_query::FeatureQuery;
use crate::feature_set::FeatureSet;
use crate::filtered::query_by_filter;
use crate::package_features::features_of_packages;
use crate::packages_of::known_packages;
use crate::taking::take_by_filter;
use guppy_feature_nodes::FeatureId;
use guppy_package_graph::{PackageId, PackageMetadata, PackageQuery, PackageSet};
use std::alloc::{AllocError, Global};

/// All features of a package.
pub fn package_to_feature_set<'g>(
    alloc: Global,
    graph: &FeatureGraph<'g>,
    package: &PackageMetadata<'_>,
) -> Result<FeatureSet<'g>, AllocError>
    requires { ids_of (graph_of «package».now).packages
        ≡ ids_of (feature_graph_of graph.now).rows.packages }
    ensures features { IfOk result (IsSetOf (feature_graph_of graph.now)
        (IsOfPackage (feature_graph_of graph.now) (λ place. place ≡ place_of «package».now))) }
{
    let packages = package.to_package_set(alloc)?;
    let features = features_of_packages(alloc, graph, &packages)?;
    FeatureSet::found(graph, features)
}

/// The features of a set's packages that the filter takes. It is asked about each of these features
/// once, after all memory was taken.
pub fn set_to_feature_set<'g, F: FeatureFilter>(
    alloc: Global,
    graph: &FeatureGraph<'g>,
    set: &PackageSet<'_>,
    filter: &mut F,
) -> Result<FeatureSet<'g>, AllocError>
    requires packages { ids_of set.now.graph.packages
        ≡ ids_of (feature_graph_of graph.now).rows.packages }
    requires can { F.can_accept filter.old }
    ensures ok { IfOk result
        (λ s. (judged : Judged)
        × AreJudged (IsOfSet (feature_graph_of graph.now) set.now.included) judged
        × Chain (F.steps filter.old) (F.state filter.old)
        (shown_features (feature_graph_of graph.now) judged) (F.state filter.new)
        × IsSetOf (feature_graph_of graph.now) (λ v. Contains judged (v, true)) s) }
    ensures same { SameSteps (F.steps filter.old) (F.steps filter.new) }
    ensures can { F.can_accept filter.new }
    ensures err { OnErr result (filter.new ≡ filter.old) }
{
    let wanted = features_of_packages(alloc, graph, set)?;
    match take_by_filter(alloc, graph, &wanted, filter) {
        Ok(taken) => FeatureSet::found(graph, taken.included),
        Err(refused) => Err(refused),
    }
}

/// A query from the features of the query's initials that the filter takes, in its direction. The
/// filter is asked about each of these features once, after all memory was taken.
pub fn query_to_feature_query<'g, F: FeatureFilter>(
    alloc: Global,
    graph: &FeatureGraph<'g>,
    query: &PackageQuery<'_>,
    filter: &mut F,
) -> Result<FeatureQuery<'g>, AllocError>
    requires packages { ids_of query.now.graph.packages
        ≡ ids_of (feature_graph_of graph.now).rows.packages }
    requires can { F.can_accept filter.old }
    ensures ok { IfOk result
        (λ q. (judged : Judged)
        × AreJudged (IsOfPackage (feature_graph_of graph.now)
        (IsNamed query.now.graph (map (id_at query.now.graph) query.now.initials))) judged
        × Chain (F.steps filter.old) (F.state filter.old)
        (shown_features (feature_graph_of graph.now) judged) (F.state filter.new)
        × IsQueryOf (feature_graph_of graph.now) query.now.direction
        (λ v. Contains judged (v, true)) q) }
    ensures same { SameSteps (F.steps filter.old) (F.steps filter.new) }
    ensures can { F.can_accept filter.new }
    ensures err { OnErr result (filter.new ≡ filter.old) }
{
    let ids = initial_ids(alloc, query)?;
    let packages = known_packages(alloc, query.graph(), &ids)?;
    query_by_filter(alloc, graph, &packages, query.direction(), filter)
}

fn initial_ids<'a>(
    alloc: Global,
    query: &'a PackageQuery<'_>,
) -> Result<Vec<&'a PackageId>, AllocError>
    ensures { IfOk result (λ ids. map (λ id. id.now) ids.items
        ≡ map (id_at query.entry.now.graph) query.entry.now.initials) }
{
    let mut ids: Vec<&'a PackageId> = Vec::new(alloc);
    let mut packages = query.initials();
    while let Some(package) = packages.next() {
        ids.push(package.id())?;
    }
    Ok(ids)
}

/// The feature that a package's manifest calls `default`, or where it names none the package itself.
pub fn default_feature_id<'g>(package: &PackageMetadata<'g>) -> FeatureId<'g>
    ensures id { IsDefaultId (graph_of «package».now) (place_of «package».now) (id_view result) }
{
    if package.has_default_feature() {
        FeatureId::named(package.id(), "default")
    } else {
        FeatureId::base(package.id())
    }
}
