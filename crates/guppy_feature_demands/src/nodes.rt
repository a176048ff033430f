//! The nodes of a feature graph, each found by its feature.

ghost use Rattle.std.specs.Prelude.{◌≡◌, ◌++◌, [], IfOk, OnOk, length, map};
ghost use Rattle.std.specs.List.{flat_map};
ghost use Rattle.workspace_record.specs.Features.{feature_eq};
ghost use Rattle.guppy_feature_demands.specs.IdViews.{id_view};
ghost use Rattle.guppy_feature_demands.specs.HashedViews.{hashed_view};
ghost use Rattle.guppy_feature_demands.specs.NameViews.{name_view};
ghost use Rattle.guppy_feature_demands.specs.Nodes.{features_of, first_of_each, nodes_of, is_node, number_of};

use crate::feature_id::FeatureId;
use crate::feature_key::FeatureKey;
use crate::feature_name::FeatureName;
use crate::hashed_id::HashedId;
use crate::package_at::PackageAt;
use guppy_package_parts::FeatureRow;
use indexmap::IndexSet;
use std::alloc::{AllocError, Global};
use std::marker::Model;

/// Features, each with its number: its place in the list.
pub struct NodeTable<'g> {
    ids: Vec<FeatureId<'g>>,
    names: IndexSet<FeatureKey<'g>>,
}

// Written out, so that a function that lets one go takes one step.
impl Drop for NodeTable<'_> {
    fn drop(self) {
        let NodeTable { ids: _, names } = self;
        drop(names);
    }
}

impl<'g> Model for NodeTable<'g> {
    ghost use Rattle.std.specs.Prelude.{◌≡◌, List, map};
    ghost use Rattle.workspace_record.specs.Features.{FeatureValue};
    ghost use Rattle.guppy_feature_demands.specs.IdViews.{id_view};
    ghost use Rattle.guppy_feature_demands.specs.HashedViews.{hashed_view};

    ghost Value = { List FeatureValue };

    ghost view = { λ t. map hashed_view t.names.keys };

    ghost invariant = { λ t. map id_view t.ids.items ≡ map hashed_view t.names.keys };
}

impl<'g> NodeTable<'g> {
    /// The features of these packages.
    pub fn of(alloc: Global, packages: &[PackageAt<'g>]) -> Result<NodeTable<'g>, AllocError>
        ensures nodes { IfOk result (λ t. t ≡ nodes_of (map (λ p. p.row.now) packages.now)) }
    {
        let features = features_of(alloc, packages)?;
        first_of_each(alloc, &features)
    }

    /// The features, in the order of their numbers.
    pub fn ids(&self) -> &[FeatureId<'g>]
        ensures value { map id_view result.now ≡ self.now }
    {
        &self.ids
    }

    /// The same, with the hashes of the packages' ids.
    pub(crate) fn names(&self) -> &[FeatureKey<'g>]
        ensures value { map hashed_view result.now ≡ self.now }
    {
        self.names.as_slice()
    }

    /// Whether there is such a feature.
    pub fn contains(&self, feature: FeatureName<'_>) -> bool
        ensures answer { result ≡ is_node self.now (name_view feature.entry) }
    {
        self.has(feature.hashed())
    }

    /// The number of a feature; the number of features where there is none.
    pub fn number_of(&self, feature: FeatureName<'_>) -> usize
        ensures number { result ≡ number_of self.now (name_view feature.entry) }
    {
        self.place_of(feature.hashed())
    }

    /// Whether there is such a feature.
    pub(crate) fn has(&self, name: FeatureKey<'_>) -> bool
        ensures answer { result ≡ is_node self.now (hashed_view name.entry) }
    {
        self.names.contains(&name)
    }

    /// The number of a feature; the number of features where there is none.
    pub(crate) fn place_of(&self, name: FeatureKey<'_>) -> usize
        ensures number { result ≡ number_of self.now (hashed_view name.entry) }
    {
        match self.names.get_index_of(&name) {
            Some(number) => number,
            None => self.names.len(),
        }
    }

    /// How many features there are.
    pub fn len(&self) -> usize
        ensures count { result ≡ length self.now }
    {
        self.names.len()
    }
}

fn features_of<'g>(
    alloc: Global,
    packages: &[PackageAt<'g>],
) -> Result<Vec<FeatureId<'g>>, AllocError>
    ensures { IfOk result (λ v. map id_view v.items
        ≡ flat_map features_of (map (λ p. p.row.now) packages.now)) }
{
    let mut features: Vec<FeatureId<'g>> = Vec::new(alloc);
    for entry in packages {
        push_features(*entry, &mut features)?;
    }
    Ok(features)
}

fn push_features<'g>(at: PackageAt<'g>, features: &mut Vec<FeatureId<'g>>) -> Result<(), AllocError>
    ensures { OnOk result (map id_view features.new.items
        ≡ map id_view features.old.items ++ features_of at.entry.row.now) }
{
    let row = at.row;
    features.push(FeatureId::base(at.id))?;
    let named: &[FeatureRow] = &row.features;
    for feature in named {
        features.push(FeatureId::named(at.id, feature.name.as_str()))?;
    }
    let optional: &[String] = &row.optional;
    for name in optional {
        features.push(FeatureId::optional_dependency(at.id, name.as_str()))?;
    }
    Ok(())
}

fn first_of_each<'g>(alloc: Global, features: &[FeatureId<'g>]) -> Result<NodeTable<'g>, AllocError>
    ensures { IfOk result (λ t. t ≡ first_of_each feature_eq (map id_view features.now)) }
{
    let mut ids: Vec<FeatureId<'g>> = Vec::with_capacity(alloc, features.len())?;
    let mut names: IndexSet<FeatureKey<'g>> = IndexSet::with_capacity(alloc, features.len())?;
    match push_firsts(features, &mut names, &mut ids) {
        Ok(()) => Ok(NodeTable { ids, names }),
        Err(refused) => {
            drop(names);
            Err(refused)
        }
    }
}

/// Lists the first of each of these features, with its name, where none is listed yet.
fn push_firsts<'g>(
    features: &[FeatureId<'g>],
    names: &mut IndexSet<FeatureKey<'g>>,
    ids: &mut Vec<FeatureId<'g>>,
) -> Result<(), AllocError>
    requires names { names.old.keys ≡ [] }
    requires ids { ids.old.items ≡ [] }
    ensures names { OnOk result (map hashed_view names.new.keys
        ≡ first_of_each feature_eq (map id_view features.now)) }
    ensures ids { OnOk result (map id_view ids.new.items ≡ map hashed_view names.new.keys) }
{
    let mut last = HashedId::of("");
    for feature in features {
        let name = FeatureKey::of(last, *feature);
        last = name.id;
        if names.insert(name)? {
            ids.push(*feature)?;
        }
    }
    Ok(())
}
