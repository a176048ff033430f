//! Dependencies as manifests declare them.

ghost use Rattle.std.specs.Prelude.{◌≡◌};
ghost use Rattle.serde_json.specs.View.{view};
ghost use Rattle.cargo_metadata.specs.declared.key.Key.TheVariants as key;
ghost use Rattle.cargo_metadata.specs.Dependencies as spec;
ghost use Rattle.cargo_metadata.specs.Dependencies.{line_kind_at};
ghost use Rattle.cargo_metadata.specs.Outcomes.{Gives};

use crate::error::MetadataError;
use crate::key::Key;
use crate::object::{FromValue, flag_at, given, optional_text_at, text_at, texts_at};
use serde_json::Value;
use std::alloc::Global;
use std::marker::Model;
use workspace_record::{LineKind, LineRecord};

/// A dependency as a manifest declares it: the name of its package, what it is renamed to, where it
/// may come from, and which versions of it meet it.
#[derive(Debug, Drop)]
pub struct Dependency {
    pub package_name: String,
    pub rename: Option<String>,
    pub source: Option<String>,
    pub requirement: String,
    pub registry: Option<String>,
    pub path: Option<String>,
    pub line: LineRecord,
}

impl Model for Dependency {
    ghost use Rattle.std.specs.Prelude.{option_map, string_bytes};
    ghost use Rattle.cargo_metadata.specs.Dependencies.{Declared};

    ghost Value = { Declared };

    ghost view = { λ d. record {
      package_name = string_bytes d.package_name;
      rename = option_map string_bytes d.rename;
      source = option_map string_bytes d.source;
      requirement = string_bytes d.requirement;
      registry = option_map string_bytes d.registry;
      path = option_map string_bytes d.path;
      line = d.line;
    } };
}

impl Dependency {
    /// What the manifest calls the dependency.
    pub fn name(&self) -> &str
        ensures { result.now ≡ spec.name_of self.entry.now }
    {
        match &self.rename {
            Some(name) => name.as_str(),
            None => self.package_name.as_str(),
        }
    }
}

impl FromValue for Dependency {
    ghost use Rattle.cargo_metadata.specs.Dependencies.{dependency_of};

    ghost read = { dependency_of };

    #[tactic(auto, unfolding(crate::specs::Dependencies::dependency_of, crate::specs::Dependencies::line_of))]
    fn from_value(alloc: Global, value: &Value) -> Result<Dependency, MetadataError> {
        let package_name = text_at(alloc, value, Key::Name)?;
        let rename = optional_text_at(alloc, value, Key::Rename)?;
        let source = optional_text_at(alloc, value, Key::Source)?;
        let requirement = text_at(alloc, value, Key::Requirement)?;
        let registry = optional_text_at(alloc, value, Key::Registry)?;
        let path = optional_text_at(alloc, value, Key::Path)?;
        let kind = line_kind_at(value)?;
        let optional = flag_at(value, Key::Optional)?;
        let default_features = flag_at(value, Key::UsesDefaultFeatures)?;
        let features = texts_at(alloc, value, Key::Features)?;
        let spec = optional_text_at(alloc, value, Key::Target)?;
        Ok(Dependency {
            package_name,
            rename,
            source,
            requirement,
            registry,
            path,
            line: LineRecord {
                kind,
                optional,
                default_features,
                features,
                spec,
            },
        })
    }
}

/// The section of a dependency; absent is the normal one.
pub(crate) fn line_kind_at(value: &Value) -> Result<LineKind, MetadataError>
    ensures { Gives (λ k. k) result (line_kind_at (view value.now)) }
{
    let Some(found) = given(value, Key::Kind) else {
        return Ok(LineKind::Normal);
    };
    let kind = found.as_str().and_then(line_kind);
    kind.ok_or(MetadataError::at(Key::Kind))
}

fn line_kind(name: &str) -> Option<LineKind>
    ensures { result ≡ spec.line_kind name.now }
{
    match name {
        "normal" => Some(LineKind::Normal),
        "build" => Some(LineKind::Build),
        "dev" => Some(LineKind::Dev),
        _ => None,
    }
}
