//! Packages with the dependencies that they declare.

ghost use Rattle.std.specs.Prelude.{◌≡◌, [], IfOk};
ghost use Rattle.serde_json.specs.View.{view};
ghost use Rattle.list_facts.specs.Texts.{texts};
ghost use Rattle.cargo_metadata.specs.declared.key.Key.TheVariants as key;
ghost use Rattle.cargo_metadata.specs.Outcomes.{Gives};
ghost use Rattle.cargo_metadata.specs.Packages.{contents_of, features_of, is_new_optional, optional_names, package_of};
ghost use Rattle.cargo_metadata.specs.Values.{required};

use crate::called::at_package;
use crate::dependency::Dependency;
use crate::details::details_of;
use crate::error::MetadataError;
use crate::key::Key;
use crate::object::{FromValue, each_of, given, objects_at, text_at, texts_of};
use crate::target::targets_of;
use serde_json::Value;
use std::alloc::{AllocError, Global};
use std::marker::Model;
use workspace_record::{FeatureRecord, PackageRecord, TargetRecord};

/// A package of a record, and the dependencies that its manifest declares.
#[derive(Debug, Drop)]
pub struct DeclaringPackage {
    pub row: PackageRecord,
    pub dependencies: Vec<Dependency>,
}

impl Model for DeclaringPackage {
    ghost use Rattle.cargo_metadata.specs.Packages.{Declaring};

    ghost Value = { Declaring };

    ghost view = { λ p. record { row = p.row; dependencies = p.dependencies.items } };
}

impl FromValue for DeclaringPackage {
    ghost use Rattle.cargo_metadata.specs.Called.{of_package};
    ghost use Rattle.cargo_metadata.specs.Packages.{package_of};

    ghost read = { of_package package_of };

    /// A package, which its faults name.
    fn from_value(alloc: Global, value: &Value) -> Result<DeclaringPackage, MetadataError> {
        match package_of(alloc, value) {
            Err(MetadataError::BadShape(key)) => Err(at_package(alloc, value, key)?),
            read => read,
        }
    }
}

#[tactic(auto, unfolding(crate::specs::Packages::package_of))]
fn package_of(alloc: Global, value: &Value) -> Result<DeclaringPackage, MetadataError>
    ensures { Gives (λ p. p) result (package_of (view value.now)) }
{
    let id = text_at(alloc, value, Key::Id)?;
    let name = text_at(alloc, value, Key::Name)?;
    let version = text_at(alloc, value, Key::Version)?;
    let info = details_of(alloc, value)?;
    contents_of(alloc, name.as_str(), value).map(|contents| DeclaringPackage {
        row: PackageRecord {
            id,
            name,
            version,
            features: contents.features,
            optional: contents.optional,
            targets: contents.targets,
            info,
        },
        dependencies: contents.dependencies,
    })
}

/// What a package holds.
#[derive(Drop)]
struct Contents {
    features: Vec<FeatureRecord>,
    optional: Vec<String>,
    targets: Vec<TargetRecord>,
    dependencies: Vec<Dependency>,
}

impl Model for Contents {
    ghost use Rattle.std.specs.Prelude.{map, string_bytes};
    ghost use Rattle.cargo_metadata.specs.Packages.{Contents as ContentsParts};

    ghost Value = { ContentsParts };

    ghost view = { λ c. record {
      features = c.features.items;
      optional = map string_bytes c.optional.items;
      targets = c.targets.items;
      dependencies = c.dependencies.items;
    } };
}

#[tactic(auto, unfolding(crate::specs::Packages::contents_of))]
fn contents_of(alloc: Global, owner: &str, value: &Value) -> Result<Contents, MetadataError>
    ensures { Gives (λ c. c) result (contents_of owner.now (view value.now)) }
{
    let features = features_at(alloc, value)?;
    let targets = targets_of(alloc, owner, objects_at(value, Key::Targets)?)?;
    let dependencies = each_of::<Dependency>(alloc, objects_at(value, Key::Dependencies)?)?;
    let optional = optional_names(alloc, &dependencies)?;
    Ok(Contents {
        features,
        optional,
        targets,
        dependencies,
    })
}

fn features_at(alloc: Global, value: &Value) -> Result<Vec<FeatureRecord>, MetadataError>
    ensures { Gives (λ v. v.items) result (required features_of key.Features (view value.now)) }
{
    let Some(members) = given(value, Key::Features).and_then(Value::as_object) else {
        return Err(MetadataError::at(Key::Features));
    };
    let mut features = Vec::new(alloc);
    for (name, value) in members.iter() {
        let enables = texts_of(alloc, value, Key::Features)?;
        let name = String::from_str(alloc, name.as_str())?;
        features.push(FeatureRecord { name, enables })?;
    }
    Ok(features)
}

/// The names of the optional dependencies, each once.
fn optional_names(alloc: Global, dependencies: &[Dependency]) -> Result<Vec<String>, AllocError>
    ensures { IfOk result (λ v. texts v.items ≡ optional_names [] dependencies.now) }
{
    let mut names = Vec::new(alloc);
    for dependency in dependencies {
        if is_new_optional(&names, dependency) {
            names.push(String::from_str(alloc, dependency.name())?)?;
        }
    }
    Ok(names)
}

fn is_new_optional(seen: &[String], dependency: &Dependency) -> bool
    ensures { result ≡ is_new_optional (texts seen.now) dependency.now }
{
    let name = dependency.name();
    dependency.line.optional && !seen.iter().any(|other| other.as_str() == name)
}
