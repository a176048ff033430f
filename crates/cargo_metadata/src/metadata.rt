//! The whole of what `cargo metadata` prints.

ghost use Rattle.std.specs.Prelude.{option_map};
ghost use Rattle.serde_json.specs.View.{view};
ghost use Rattle.cargo_metadata.specs.Files.{ReadsFile};
ghost use Rattle.cargo_metadata.specs.Metadata.{metadata_file, metadata_of, nodes_at};
ghost use Rattle.cargo_metadata.specs.Outcomes.{Gives};

use crate::error::MetadataError;
use crate::key::Key;
use crate::object::{
    each_of, given, objects_at, optional_text_at, optional_texts_at, text_at, texts_at,
};
use crate::package::DeclaringPackage;
use crate::resolved::ResolvedPackage;
use serde_json::Value;
use std::alloc::Global;
use std::marker::Model;

/// What `cargo metadata` says of a workspace. Without a resolve it was made with `--no-deps`.
#[derive(Debug, Drop)]
pub struct Metadata {
    pub format: Option<u64>,
    pub packages: Vec<DeclaringPackage>,
    pub nodes: Option<Vec<ResolvedPackage>>,
    pub workspace: WorkspaceNames,
}

impl Model for Metadata {
    ghost use Rattle.std.specs.Prelude.{option_map};
    ghost use Rattle.cargo_metadata.specs.Metadata.{Metadata as MetadataValue};

    ghost Value = { MetadataValue };

    ghost view = { λ m. record { format = m.format; packages = m.packages.items; nodes = option_map (λ v. v.items) m.nodes; workspace = m.workspace } };
}

/// The folders of a workspace, and its members by their ids. Older Cargos name no default members.
#[derive(Debug, Drop)]
pub struct WorkspaceNames {
    pub root: String,
    pub target_directory: String,
    pub build_directory: Option<String>,
    pub members: Vec<String>,
    pub default_members: Option<Vec<String>>,
}

impl Model for WorkspaceNames {
    ghost use Rattle.std.specs.Prelude.{map, option_map, string_bytes};
    ghost use Rattle.cargo_metadata.specs.Metadata.{Names};

    ghost Value = { Names };

    ghost view = { λ w. record {
      root = string_bytes w.root;
      target_directory = string_bytes w.target_directory;
      build_directory = option_map string_bytes w.build_directory;
      members = map string_bytes w.members.items;
      default_members = option_map (λ v. map string_bytes v.items) w.default_members;
    } };
}

/// Reads what `cargo metadata --format-version 1` prints. Keys that are not used are ignored.
pub fn read_metadata(alloc: Global, bytes: &[u8]) -> Result<Metadata, MetadataError>
    ensures reads { ReadsFile (λ m. m) metadata_file bytes.now result }
{
    match Value::from_slice(alloc, bytes) {
        Ok(value) if value.is_object() => metadata_of(alloc, &value),
        Ok(_) => Err(MetadataError::at(Key::File)),
        Err(error) if error.is_memory() => Err(MetadataError::Memory),
        Err(_) => Err(MetadataError::BadJson),
    }
}

#[tactic(auto, unfolding(crate::specs::Metadata::metadata_of, crate::specs::Metadata::workspace_of))]
fn metadata_of(alloc: Global, value: &Value) -> Result<Metadata, MetadataError>
    ensures { Gives (λ m. m) result (metadata_of (view value.now)) }
{
    let format = value.get("version").and_then(Value::as_u64);
    let root = text_at(alloc, value, Key::WorkspaceRoot)?;
    let target_directory = text_at(alloc, value, Key::TargetDirectory)?;
    let build_directory = optional_text_at(alloc, value, Key::BuildDirectory)?;
    let members = texts_at(alloc, value, Key::WorkspaceMembers)?;
    let default_members = optional_texts_at(alloc, value, Key::WorkspaceDefaultMembers)?;
    let nodes = nodes_at(alloc, value)?;
    let packages = each_of::<DeclaringPackage>(alloc, objects_at(value, Key::Packages)?)?;
    Ok(Metadata {
        format,
        packages,
        nodes,
        workspace: WorkspaceNames {
            root,
            target_directory,
            build_directory,
            members,
            default_members,
        },
    })
}

fn nodes_at(alloc: Global, value: &Value) -> Result<Option<Vec<ResolvedPackage>>, MetadataError>
    ensures { Gives (option_map (λ v. v.items)) result (nodes_at (view value.now)) }
{
    match given(value, Key::Resolve) {
        None => Ok(None),
        Some(resolve) => Ok(Some(each_of::<ResolvedPackage>(
            alloc,
            objects_at(resolve, Key::Nodes)?,
        )?)),
    }
}
