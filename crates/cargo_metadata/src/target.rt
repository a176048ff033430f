//! The targets of a package.

ghost use Rattle.std.specs.Prelude.{◌≡◌};
ghost use Rattle.serde_json.specs.View.{view, items_view};
ghost use Rattle.cargo_metadata.specs.Outcomes.{Gives};
ghost use Rattle.cargo_metadata.specs.Values.{each};
ghost use Rattle.cargo_metadata.specs.Packages.{kind_at, target_kind, target_of};

use crate::error::MetadataError;
use crate::key::Key;
use crate::object::{flag_at, text_at, texts_at, texts_or_none};
use serde_json::Value;
use std::alloc::Global;
use workspace_record::{TargetInfo, TargetKind, TargetRecord};

/// The targets of a package.
pub(crate) fn targets_of(
    alloc: Global,
    package: &str,
    values: &[Value],
) -> Result<Vec<TargetRecord>, MetadataError>
    ensures { Gives (λ v. v.items) result (each (target_of «package».now) (items_view values.now)) }
{
    let mut targets = Vec::new(alloc);
    for value in values {
        targets.push(target_of(alloc, package, value)?)?;
    }
    Ok(targets)
}

#[tactic(auto, unfolding(crate::specs::Packages::target_of))]
fn target_of(alloc: Global, package: &str, value: &Value) -> Result<TargetRecord, MetadataError>
    ensures { Gives (λ t. t) result (target_of «package».now (view value.now)) }
{
    let name = text_at(alloc, value, Key::Name)?;
    let kind = kind_at(alloc, package, name.as_str(), value)?;
    let required_features = texts_or_none(alloc, value, Key::RequiredFeatures)?;
    let tested = flag_at(value, Key::Test)?;
    let path = text_at(alloc, value, Key::SourcePath)?;
    let edition = text_at(alloc, value, Key::Edition)?;
    let crate_types = texts_at(alloc, value, Key::CrateTypes)?;
    let doc = flag_at(value, Key::Doc)?;
    let doctest = flag_at(value, Key::Doctest)?;
    let info = TargetInfo {
        path,
        edition,
        crate_types,
        doc,
        doctest,
    };
    Ok(TargetRecord {
        kind,
        name,
        required_features,
        tested,
        info,
    })
}

/// The first of a target's kinds, of which further ones are libraries too.
#[tactic(auto, unfolding(crate::specs::Packages::kind_at))]
fn kind_at(
    alloc: Global,
    package: &str,
    target: &str,
    value: &Value,
) -> Result<TargetKind, MetadataError>
    ensures { Gives (λ k. k) result (kind_at «package».now target.now (view value.now)) }
{
    let kinds = texts_at(alloc, value, Key::Kind)?;
    let Some(kind) = kinds.first() else {
        return Err(MetadataError::at(Key::Kind));
    };
    match target_kind(kind.as_str()) {
        Some(known) => Ok(known),
        None => {
            let package = String::from_str(alloc, package)?;
            let target = String::from_str(alloc, target)?;
            let kind = String::from_str(alloc, kind.as_str())?;
            Err(MetadataError::UnknownKind(package, target, kind))
        }
    }
}

fn target_kind(name: &str) -> Option<TargetKind>
    ensures { result ≡ target_kind name.now }
{
    match name {
        "lib" | "rlib" | "dylib" | "cdylib" | "staticlib" => Some(TargetKind::Lib),
        "proc-macro" => Some(TargetKind::ProcMacro),
        "test" => Some(TargetKind::Test),
        "bench" => Some(TargetKind::Bench),
        "bin" => Some(TargetKind::Bin),
        "example" => Some(TargetKind::Example),
        "custom-build" => Some(TargetKind::BuildScript),
        _ => None,
    }
}
