//! The order in which packages build.

ghost use Rattle.std.specs.Prelude.{◌≡◌, ◌++◌, ◌<◌, ℕ, List, [], ◌∷◌, All, IfOk, OnOk, filter, length, map, nat_lt, reverse, slice_index_or, if◌then◌else◌};
ghost use Rattle.list_facts.specs.Texts.{texts};
ghost use Rattle.feature_account.specs.Accounts.{concluded_set};
ghost use Rattle.feature_account_rules.specs.RuleList.{base_of};
ghost use Rattle.numbered_graph.specs.Links.{AreWithin};
ghost use Rattle.numbered_graph.specs.Listings.{IsListing};
ghost use Rattle.numbered_graph.specs.Sets.{has};
ghost use Rattle.test_select_features.specs.DependencyOrders.{IsDependencyOrder};
ghost use Rattle.test_select_features.specs.LinesOn.{links_on};

use crate::indexed_features::IndexedFeatures;
use crate::numbering::{NumberedLinks, numbered_links_on};
use guppy_package_graph::{PackageGraph, PackageId};
use numbered_graph::{Graph, Link, listing};
use std::alloc::{AllocError, Global};
use test_select_rules::FeaturesOn;
use workspace_record::PlatformTable;

/// The ids of the packages that are on where these features are, dependencies first: in the reverse of
/// the order in which the graph with just the lines that are on lists its packages. That graph's rows
/// are not made: of a link that is on its ends are enough, and whether a line of it is no dev line.
pub fn dependency_order(
    alloc: Global,
    graph: &PackageGraph,
    features: &FeaturesOn,
    table: &PlatformTable,
) -> Result<Vec<String>, AllocError>
    ensures order { IfOk result (λ v. IsDependencyOrder graph.now.packages
        (links_on graph.now features.now table.now) features.now (texts v.items)) }
{
    let indexed = IndexedFeatures::of(alloc, features)?;
    let rows = graph.link_rows();
    let NumberedLinks { links, firm } = numbered_links_on(alloc, graph, rows, &indexed, table)?;
    let places = places_in_order(alloc, graph.package_count(), links, &firm)?;
    ids_on(alloc, graph.package_ids(), &places, &indexed)
}

/// The places of all packages, those to which links lead before those from which they lead.
fn places_in_order(
    alloc: Global,
    count: usize,
    links: Vec<Link>,
    firm: &[bool],
) -> Result<Vec<usize>, AllocError>
    requires within { AreWithin count links.items }
    requires flags { length firm.now ≡ length links.items }
    ensures { IfOk result (λ v. (listed : List ℕ)
        × IsListing links.items (has firm.now) (λ p. nat_lt p count) listed
        × (v.items ≡ reverse listed)) }
{
    let graph = Graph::new(alloc, count, links)?;
    let mut places = listing(alloc, &graph, firm)?;
    places.reverse();
    Ok(places)
}

/// The ids of the packages at these places that are on.
fn ids_on(
    alloc: Global,
    ids: &[PackageId],
    places: &[usize],
    features: &IndexedFeatures<'_>,
) -> Result<Vec<String>, AllocError>
    requires { All (λ p. p < length ids.now) places.now }
    ensures { IfOk result (λ v. texts v.items
        ≡ filter (λ id. concluded_set features.now (base_of id))
        (map (λ p. slice_index_or ids.now p []) places.now)) }
{
    let mut on: Vec<String> = Vec::new(alloc);
    for place in places {
        push_if_on(alloc, features, &ids[*place], &mut on)?;
    }
    Ok(on)
}

/// Adds the id of a package that is on.
fn push_if_on(
    alloc: Global,
    features: &IndexedFeatures<'_>,
    id: &PackageId,
    ids: &mut Vec<String>,
) -> Result<(), AllocError>
    ensures { OnOk result (texts ids.new.items
        ≡ texts ids.old.items ++ (if concluded_set features.now (base_of id.now) then id.now ∷ []
        else [])) }
{
    if features.contains_base(id.repr()) {
        ids.push(String::from_str(alloc, id.repr())?)?;
    }
    Ok(())
}
