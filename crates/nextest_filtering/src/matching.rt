//! Names and paths of a context, as matchers ask for them.

ghost use Rattle.std.specs.Prelude.{◌≡◌, ◌↔◌, ◌++◌, ◌∷◌, [], ℕ, Contains, IfOk, IsTrue, OnOk, if◌then◌else◌, map, string_bytes};
ghost use Rattle.workspace_record.specs.Records.{Text};
ghost use Rattle.guppy_package_graph.specs.Finding.{AreKnown, IsNamed};
ghost use Rattle.nextest_filter_evaluation.specs.NameTests.{Suits, SuitsOneOf, name_test};
ghost use Rattle.nextest_filtering.specs.Meaning.{IsFeatured, IsMatched, IsReachedOf};
ghost use Rattle.nextest_filtering.specs.ContextViews.{ArePicked, IsInSet};

use crate::context_names::{NamedBinary, NamedPackage};
use crate::parse_context::ParseContext;
use guppy_package_graph::{DependencyDirection, PackageGraph, PackageId, PackageSet};
use nextest_filter_evaluation::suits;
use nextest_filter_matchers::NameMatcher;
use std::alloc::{AllocError, Global};
use std::collections::BTreeSet;

impl ParseContext<'_> {
    /// The ids of the packages whose names match.
    pub(crate) fn matched(
        &self,
        alloc: Global,
        matcher: &NameMatcher,
    ) -> Result<Vec<&PackageId>, AllocError>
        ensures { IfOk result (λ v. (id : Text) → Contains (map (λ i. i.now) v.items) id
            ↔ IsMatched self.now (name_test matcher.now) id) }
    {
        let ids = named_so(alloc, self.packages(), matcher)?;
        Ok(ids)
    }

    /// The ids of the packages that paths lead to from these, or in reverse from which paths lead to
    /// these, by one walk from all of them. From an id of no package no path leads.
    pub(crate) fn reached(
        &self,
        alloc: Global,
        starts: &[&PackageId],
        direction: DependencyDirection,
    ) -> Result<Vec<&PackageId>, AllocError>
        ensures { IfOk result (λ v. (id : Text) → Contains (map (λ i. i.now) v.items) id
            ↔ IsReachedOf self.now (Contains (map (λ i. i.now) starts.now)) direction id) }
    {
        let known = known_to(alloc, self.graph(), starts)?;
        match self.graph().query_directed(alloc, &known, direction) {
            Ok(query) => {
                let reached = query.resolve(alloc)?;
                let ids = in_set(alloc, self.packages(), &reached)?;
                Ok(ids)
            }
            Err(_) => Err(AllocError),
        }
    }

    /// The ids of the packages with a feature that is said to be on and that the matcher matches.
    pub(crate) fn featured(
        &self,
        alloc: Global,
        matcher: &NameMatcher,
    ) -> Result<Vec<&PackageId>, AllocError>
        ensures { IfOk result (λ v. (id : Text) → Contains (map (λ i. i.now) v.items) id
            ↔ IsFeatured self.now (name_test matcher.now) id) }
    {
        let listed = named_so(alloc, self.on(), matcher)?;
        let wanted = id_set(alloc, &listed)?;
        let ids = those_in(alloc, self.packages(), &wanted)?;
        Ok(ids)
    }

    /// Whether the matcher matches the name of a package's feature, be it on or off.
    pub(crate) fn has_feature(
        &self,
        alloc: Global,
        matcher: &NameMatcher,
    ) -> Result<bool, AllocError>
        ensures { IfOk result (λ r. IsTrue r
            ↔ SuitsOneOf (name_test matcher.now) self.now.features) }
    {
        some_text_suits(alloc, self.features(), matcher)
    }

    /// Whether the matcher matches the id of a binary.
    pub(crate) fn has_binary_id(
        &self,
        alloc: Global,
        matcher: &NameMatcher,
    ) -> Result<bool, AllocError>
        ensures { IfOk result (λ r. IsTrue r
            ↔ SuitsOneOf (name_test matcher.now) (map (λ b. b.0) self.now.binaries)) }
    {
        some_id_suits(alloc, self.binaries(), matcher)
    }

    /// Whether the matcher matches the name of a binary.
    pub(crate) fn has_binary_name(
        &self,
        alloc: Global,
        matcher: &NameMatcher,
    ) -> Result<bool, AllocError>
        ensures { IfOk result (λ r. IsTrue r
            ↔ SuitsOneOf (name_test matcher.now) (map (λ b. b.1) self.now.binaries)) }
    {
        some_name_suits(alloc, self.binaries(), matcher)
    }
}

// So `query_directed` never refuses one: where a package of a context is not in its graph no path leads from it.
/// Those of the ids that are of packages of the graph.
fn known_to<'a>(
    alloc: Global,
    graph: &PackageGraph,
    ids: &[&'a PackageId],
) -> Result<Vec<&'a PackageId>, AllocError>
    ensures known { IfOk result (λ v. AreKnown graph.now (map (λ i. i.now) v.items)) }
    ensures same { IfOk result (λ v. (place : ℕ)
        → IsNamed graph.now (map (λ i. i.now) v.items) place
        ↔ IsNamed graph.now (map (λ i. i.now) ids.entry.now) place) }
{
    let mut known = Vec::new(alloc);
    for id in ids {
        if graph.metadata(*id).is_ok() {
            known.push(*id)?;
        }
    }
    Ok(known)
}

fn named_so<'a>(
    alloc: Global,
    packages: &'a [NamedPackage],
    matcher: &NameMatcher,
) -> Result<Vec<&'a PackageId>, AllocError>
    ensures { IfOk result (λ v. ArePicked (λ p. Suits (name_test matcher.now) p.1)
        packages.entry.now (map (λ i. i.now) v.items)) }
{
    let mut ids = Vec::new(alloc);
    for found in packages {
        let is_named = suits(alloc, matcher, found.name.as_str())?;
        push_if(is_named, &found.id, &mut ids)?;
    }
    Ok(ids)
}

/// The ids of the packages that are in the set.
fn in_set<'a>(
    alloc: Global,
    packages: &'a [NamedPackage],
    set: &PackageSet<'_>,
) -> Result<Vec<&'a PackageId>, AllocError>
    ensures { IfOk result (λ v. ArePicked (λ p. IsInSet set.now p.0) packages.entry.now
        (map (λ i. i.now) v.items)) }
{
    let mut ids = Vec::new(alloc);
    for found in packages {
        let is_in = contains(set, &found.id);
        push_if(is_in, &found.id, &mut ids)?;
    }
    Ok(ids)
}

/// The ids of the packages whose ids are wanted.
fn those_in<'a>(
    alloc: Global,
    packages: &'a [NamedPackage],
    wanted: &BTreeSet<PackageId>,
) -> Result<Vec<&'a PackageId>, AllocError>
    ensures { IfOk result (λ v. ArePicked (λ p. Contains wanted.now.keys p.0) packages.entry.now
        (map (λ i. i.now) v.items)) }
{
    let mut ids = Vec::new(alloc);
    for found in packages {
        let is_in = is_wanted(wanted, &found.id);
        push_if(is_in, &found.id, &mut ids)?;
    }
    Ok(ids)
}

fn is_wanted(wanted: &BTreeSet<PackageId>, id: &PackageId) -> bool
    ensures { IsTrue result ↔ Contains wanted.now.keys id.now }
{
    wanted.contains(id)
}

fn push_if<'a>(
    is_wanted: bool,
    id: &'a PackageId,
    ids: &mut Vec<&'a PackageId>,
) -> Result<(), AllocError>
    ensures { OnOk result (map (λ i. i.now) ids.new.items
        ≡ map (λ i. i.now) ids.old.items ++ (if is_wanted then id.entry.now ∷ [] else [])) }
{
    if is_wanted {
        ids.push(id)?;
    }
    Ok(())
}

fn contains(set: &PackageSet<'_>, id: &PackageId) -> bool
    ensures { IsTrue result ↔ IsInSet set.now id.now }
{
    match set.contains(id) {
        Ok(answer) => answer,
        Err(_) => false,
    }
}

fn some_id_suits(
    alloc: Global,
    binaries: &[NamedBinary],
    matcher: &NameMatcher,
) -> Result<bool, AllocError>
    ensures { IfOk result (λ r. IsTrue r
        ↔ SuitsOneOf (name_test matcher.now) (map (λ b. b.0) binaries.now)) }
{
    for binary in binaries {
        if suits(alloc, matcher, binary.id.as_str())? {
            return Ok(true);
        }
    }
    Ok(false)
}

fn some_name_suits(
    alloc: Global,
    binaries: &[NamedBinary],
    matcher: &NameMatcher,
) -> Result<bool, AllocError>
    ensures { IfOk result (λ r. IsTrue r
        ↔ SuitsOneOf (name_test matcher.now) (map (λ b. b.1) binaries.now)) }
{
    for binary in binaries {
        if suits(alloc, matcher, binary.name.as_str())? {
            return Ok(true);
        }
    }
    Ok(false)
}

fn some_text_suits(
    alloc: Global,
    names: &[String],
    matcher: &NameMatcher,
) -> Result<bool, AllocError>
    ensures { IfOk result (λ r. IsTrue r
        ↔ SuitsOneOf (name_test matcher.now) (map string_bytes names.now)) }
{
    for name in names {
        if suits(alloc, matcher, name.as_str())? {
            return Ok(true);
        }
    }
    Ok(false)
}

/// The ids as a set.
pub(crate) fn id_set(alloc: Global, ids: &[&PackageId]) -> Result<BTreeSet<PackageId>, AllocError>
    ensures { IfOk result (λ s. (id : Text) → Contains s.keys id
        ↔ Contains (map (λ i. i.now) ids.now) id) }
{
    let mut set = BTreeSet::new(alloc);
    for id in ids {
        let id = id.copy(alloc)?;
        set.insert(id)?;
    }
    Ok(set)
}
