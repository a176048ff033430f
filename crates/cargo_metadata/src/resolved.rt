//! What Cargo resolved each package's dependencies to.

ghost use Rattle.serde_json.specs.View.{view};
ghost use Rattle.cargo_metadata.specs.Outcomes.{Gives};
ghost use Rattle.cargo_metadata.specs.Resolved.{node_of};

use crate::called::at_package;
use crate::dependency::line_kind_at;
use crate::error::MetadataError;
use crate::key::Key;
use crate::object::{FromValue, each_of, objects_at, optional_text_at, text_at};
use serde_json::Value;
use std::alloc::Global;
use std::marker::Model;
use workspace_record::LineKind;

/// For which sections and platforms a package was resolved.
#[derive(Debug, Drop)]
pub struct ResolvedKind {
    pub kind: LineKind,
    pub spec: Option<String>,
}

impl Model for ResolvedKind {
    ghost use Rattle.std.specs.Prelude.{option_map, string_bytes};
    ghost use Rattle.cargo_metadata.specs.Resolved.{Kind};

    ghost Value = { Kind };

    ghost view = { λ k. record { kind = k.kind; spec = option_map string_bytes k.spec } };
}

/// A package that a dependency was resolved to, and the name under which its library is known.
#[derive(Debug, Drop)]
pub struct ResolvedDependency {
    pub name: String,
    pub package_id: String,
    pub kinds: Vec<ResolvedKind>,
}

impl Model for ResolvedDependency {
    ghost use Rattle.std.specs.Prelude.{string_bytes};
    ghost use Rattle.cargo_metadata.specs.Resolved.{Entry};

    ghost Value = { Entry };

    ghost view = { λ e. record { name = string_bytes e.name; package_id = string_bytes e.package_id; kinds = e.kinds.items } };
}

/// A package, by its id, with what its dependencies were resolved to.
#[derive(Debug, Drop)]
pub struct ResolvedPackage {
    pub id: String,
    pub dependencies: Vec<ResolvedDependency>,
}

impl Model for ResolvedPackage {
    ghost use Rattle.std.specs.Prelude.{string_bytes};
    ghost use Rattle.cargo_metadata.specs.Resolved.{Node};

    ghost Value = { Node };

    ghost view = { λ n. record { id = string_bytes n.id; dependencies = n.dependencies.items } };
}

impl FromValue for ResolvedPackage {
    ghost use Rattle.cargo_metadata.specs.Called.{of_package};
    ghost use Rattle.cargo_metadata.specs.Resolved.{node_of};

    ghost read = { of_package node_of };

    /// A package with what was resolved, which its faults name.
    fn from_value(alloc: Global, value: &Value) -> Result<ResolvedPackage, MetadataError> {
        match node_of(alloc, value) {
            Err(MetadataError::BadShape(key)) => Err(at_package(alloc, value, key)?),
            read => read,
        }
    }
}

#[tactic(auto, unfolding(crate::specs::Resolved::node_of))]
fn node_of(alloc: Global, value: &Value) -> Result<ResolvedPackage, MetadataError>
    ensures { Gives (λ n. n) result (node_of (view value.now)) }
{
    let id = text_at(alloc, value, Key::Id)?;
    let dependencies = each_of::<ResolvedDependency>(alloc, objects_at(value, Key::Deps)?)?;
    Ok(ResolvedPackage { id, dependencies })
}

impl FromValue for ResolvedDependency {
    ghost use Rattle.cargo_metadata.specs.Resolved.{entry_of};

    ghost read = { entry_of };

    #[tactic(auto, unfolding(crate::specs::Resolved::entry_of))]
    fn from_value(alloc: Global, value: &Value) -> Result<ResolvedDependency, MetadataError> {
        let name = text_at(alloc, value, Key::Name)?;
        let package_id = text_at(alloc, value, Key::Pkg)?;
        let kinds = each_of::<ResolvedKind>(alloc, objects_at(value, Key::DepKinds)?)?;
        Ok(ResolvedDependency {
            name,
            package_id,
            kinds,
        })
    }
}

impl FromValue for ResolvedKind {
    ghost use Rattle.cargo_metadata.specs.Resolved.{kind_of};

    ghost read = { kind_of };

    #[tactic(auto, unfolding(crate::specs::Resolved::kind_of))]
    fn from_value(alloc: Global, value: &Value) -> Result<ResolvedKind, MetadataError> {
        let kind = line_kind_at(value)?;
        let spec = optional_text_at(alloc, value, Key::Target)?;
        Ok(ResolvedKind { kind, spec })
    }
}
