//! The workspace read from a record's file.

ghost use Rattle.std.specs.Prelude.{◌≡◌};
ghost use Rattle.record_files.specs.Trees.{seen};
ghost use Rattle.record_files.specs.Outcomes.{Gives};
ghost use Rattle.record_files.specs.Workspaces.{workspace_of};

use crate::error::ReadError;
use crate::key::Key;
use crate::metadata::metadata_at;
use crate::object::{FromValue, each_of, objects_at, optional_text_at, text_at, text_or, texts_at};
use json::Value;
use std::alloc::Global;
use workspace_record::{GroupRecord, MemberRecord, WorkspaceInfo};

/// The folder that Cargo builds in where a workspace names none.
const DEFAULT_TARGET_DIRECTORY: &str = "target";

#[tactic(auto, unfolding(crate::specs::Workspaces::workspace_of))]
pub(crate) fn workspace_of(alloc: Global, value: &Value<'_>) -> Result<WorkspaceInfo, ReadError>
    ensures { Gives (λ w. w) result (workspace_of (seen value.now)) }
{
    let root = text_or(alloc, value, Key::Root, "")?;
    let target_directory = text_or(alloc, value, Key::TargetDirectory, DEFAULT_TARGET_DIRECTORY)?;
    let build_directory = optional_text_at(alloc, value, Key::BuildDirectory)?;
    let default_members = texts_at(alloc, value, Key::DefaultMembers)?;
    let metadata = metadata_at(alloc, value)?;
    let members = each_of::<MemberRecord>(alloc, objects_at(value, Key::Members)?)?;
    Ok(WorkspaceInfo {
        root,
        target_directory,
        build_directory,
        members,
        default_members,
        metadata,
    })
}

impl FromValue for MemberRecord {
    ghost use Rattle.record_files.specs.Workspaces.{member_of};

    ghost read = { member_of };

    #[tactic(auto, unfolding(crate::specs::Workspaces::member_of))]
    fn from_value(alloc: Global, value: &Value<'_>) -> Result<MemberRecord, ReadError> {
        let package = text_at(alloc, value, Key::Package)?;
        let path = text_at(alloc, value, Key::Path)?;
        Ok(MemberRecord { package, path })
    }
}

impl FromValue for GroupRecord {
    ghost use Rattle.record_files.specs.Workspaces.{group_of};

    ghost read = { group_of };

    #[tactic(auto, unfolding(crate::specs::Workspaces::group_of))]
    fn from_value(alloc: Global, value: &Value<'_>) -> Result<GroupRecord, ReadError> {
        let name = text_at(alloc, value, Key::Name)?;
        let filter = text_at(alloc, value, Key::Filter)?;
        Ok(GroupRecord { name, filter })
    }
}
