//! Packages and binaries by their ids and names, and features by their names.

ghost use Rattle.std.specs.Prelude.{◌≡◌, ◌++◌, ◌∷◌, [], OnOk, Some, IfOk, codes, map, option_map, slice_get, string_bytes};
ghost use Rattle.workspace_record.specs.Records.{Package};
ghost use Rattle.guppy_package_parts.specs.BuildTargetViews.{target_view};
ghost use Rattle.guppy_package_parts.specs.BuildTargets.{id_of};
ghost use Rattle.guppy_package_graph.specs.Views.{graph_of, place_of};
ghost use Rattle.nextest_filtering.specs.Contexts.{binaries_of, binary_kind, features_of, named_binary};
ghost use Rattle.nextest_filtering.specs.ContextViews.{binaries_in, features_in, list_of, packages_in};

use guppy_package_graph::{BuildTarget, BuildTargetId, PackageId, PackageMetadata, PackageRow};
use nextest_filter_evaluation::{RustBinaryId, RustTestBinaryKind};
use std::alloc::{AllocError, Global};
use std::marker::Model;

/// A package by its id, and a name: its own, or that of a feature of it.
#[derive(Debug, Drop)]
pub(crate) struct NamedPackage {
    pub(crate) id: PackageId,
    pub(crate) name: String,
}

impl Model for NamedPackage {
    ghost use Rattle.std.specs.Prelude.{string_bytes};
    ghost use Rattle.workspace_record.specs.Records.{Text};

    ghost Value = { Text × Text };

    ghost view = { λ p. (p.id, string_bytes p.name) };
}

/// A binary by its id and its name.
#[derive(Debug, Drop)]
pub(crate) struct NamedBinary {
    pub(crate) id: RustBinaryId,
    pub(crate) name: String,
}

impl Model for NamedBinary {
    ghost use Rattle.std.specs.Prelude.{string_bytes};
    ghost use Rattle.workspace_record.specs.Records.{Text};

    ghost Value = { Text × Text };

    ghost view = { λ b. (b.id, string_bytes b.name) };
}

impl NamedPackage {
    /// The package with the id, and the name, in memory of their own.
    pub(crate) fn of(alloc: Global, id: &str, name: &str) -> Result<NamedPackage, AllocError>
        ensures { IfOk result (λ p. p ≡ (id.now, name.now)) }
    {
        let id = PackageId::new(String::from_str(alloc, id)?);
        let name = String::from_str(alloc, name)?;
        Ok(NamedPackage { id, name })
    }
}

/// The packages of a context, their binaries, and the names of their features.
#[derive(Debug)]
pub(crate) struct ContextNames {
    pub(crate) packages: Vec<NamedPackage>,
    pub(crate) binaries: Vec<NamedBinary>,
    pub(crate) features: Vec<String>,
}

// Written out, so that a function that lets one go takes one step.
impl Drop for ContextNames {
    fn drop(self) {
        let ContextNames {
            packages: _,
            binaries: _,
            features: _,
        } = self;
    }
}

impl ContextNames {
    /// Adds a package with its binaries and its features.
    pub(crate) fn add(
        &mut self,
        alloc: Global,
        added: PackageMetadata<'_>,
    ) -> Result<(), AllocError>
        ensures { OnOk result ((p : Package)
            × (slice_get (graph_of added.entry).packages (place_of added.entry) ≡ Some p)
            × (packages_in self.new ≡ packages_in self.old ++ (p.id, p.name) ∷ [])
            × (binaries_in self.new ≡ binaries_in self.old ++ binaries_of p)
            × (features_in self.new ≡ features_in self.old ++ features_of p)) }
    {
        let row = added.row();
        let package = NamedPackage::of(alloc, row.id.as_str(), row.name.as_str())?;
        push_binaries(alloc, row, &mut self.binaries)?;
        push_features(alloc, row, &mut self.features)?;
        self.packages.push(package)?;
        Ok(())
    }
}

/// Adds the names of the features of a package.
fn push_features(
    alloc: Global,
    row: &PackageRow,
    features: &mut Vec<String>,
) -> Result<(), AllocError>
    ensures { OnOk result (map string_bytes features.new.items
        ≡ map string_bytes features.old.items ++ features_of row.now) }
{
    for feature in &row.features {
        let name = String::from_str(alloc, feature.name.as_str())?;
        features.push(name)?;
    }
    Ok(())
}

/// Adds the binaries of a package.
fn push_binaries(
    alloc: Global,
    row: &PackageRow,
    binaries: &mut Vec<NamedBinary>,
) -> Result<(), AllocError>
    ensures { OnOk result (binaries.new.items ≡ binaries.old.items ++ binaries_of row.now) }
{
    for target in &row.targets {
        let binary = binary_of(alloc, row.name.as_str(), BuildTarget::of(target))?;
        push_some(binaries, binary)?;
    }
    Ok(())
}

fn push_some(binaries: &mut Vec<NamedBinary>, binary: Option<NamedBinary>) -> Result<(), AllocError>
    ensures { OnOk result (binaries.new.items ≡ binaries.old.items ++ list_of binary) }
{
    if let Some(binary) = binary {
        binaries.push(binary)?;
    }
    Ok(())
}

/// The binary of a target, unless that is a build script.
fn binary_of(
    alloc: Global,
    package_name: &str,
    target: BuildTarget<'_>,
) -> Result<Option<NamedBinary>, AllocError>
    ensures { IfOk result (λ b. list_of b
        ≡ named_binary package_name.now (target_view target.entry).name
        (binary_kind (id_of (target_view target.entry).kind (target_view target.entry).name))) }
{
    let Some(kind) = binary_kind(target) else {
        return Ok(None);
    };
    let kind = RustTestBinaryKind::new(String::from_str(alloc, kind)?);
    let id = RustBinaryId::from_parts(alloc, package_name, &kind, target.name())?;
    let name = String::from_str(alloc, target.name())?;
    Ok(Some(NamedBinary { id, name }))
}

/// The kind of a target's binary; a procedural macro's is that of a library, since their ids agree.
fn binary_kind(target: BuildTarget<'_>) -> Option<&'static str>
    ensures { option_map (λ k. k.now) result
        ≡ binary_kind (id_of (target_view target.entry).kind (target_view target.entry).name) }
{
    match target.id() {
        BuildTargetId::Library => Some(RustTestBinaryKind::LIB),
        BuildTargetId::BuildScript => None,
        BuildTargetId::Binary(_) => Some(RustTestBinaryKind::BIN),
        BuildTargetId::Example(_) => Some(RustTestBinaryKind::EXAMPLE),
        BuildTargetId::Test(_) => Some(RustTestBinaryKind::TEST),
        BuildTargetId::Benchmark(_) => Some(RustTestBinaryKind::BENCH),
    }
}
