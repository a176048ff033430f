//! Records read from their files.

ghost use Rattle.std.specs.Prelude.{◌≡◌};
ghost use Rattle.record_files.specs.Trees.{seen};
ghost use Rattle.record_files.specs.Files.{ReadsFile};
ghost use Rattle.record_files.specs.Outcomes.{Gives};
ghost use Rattle.record_files.specs.Records.{record_of, record_file};

use crate::error::ReadError;
use crate::file::value_of;
use crate::key::Key;
use crate::object::{each_of, object_at, object_of, objects_at, objects_or_none, optional_text_at};
use crate::workspace::workspace_of;
use json::{Scratch, Value};
use std::alloc::Global;
use workspace_record::{GroupRecord, LinkRecord, PackageRecord, WorkspaceRecord};

/// Reads the record of a workspace: `packages`, `links`, `workspace`, `groups` and
/// `default_filter`.
///
/// Packages, targets and the workspace have the keys that `cargo metadata` gives them; of a package
/// `id`, `name` and `version` are required, of a target `kind` and `name`, of a link `from`, `to`,
/// `name` and `lines`, and of the workspace `members`. A text or list that is left out is absent or
/// empty, except that an edition is `2021`, a requirement `*`, the target directory `target` and a
/// line's kind `normal`, as in Cargo. Null counts as left out, and unknown keys are ignored.
pub fn read_record(alloc: Global, bytes: &[u8]) -> Result<WorkspaceRecord, ReadError>
    ensures reads { ReadsFile (λ w. w) record_file bytes.now result }
{
    let mut scratch = Scratch::new(alloc);
    let value = value_of(alloc, bytes, &mut scratch)?;
    record_of(alloc, object_of(&value, Key::File)?)
}

#[tactic(auto, unfolding(crate::specs::Records::record_of))]
fn record_of(alloc: Global, value: &Value<'_>) -> Result<WorkspaceRecord, ReadError>
    ensures { Gives (λ w. w) result (record_of (seen value.now)) }
{
    let none = Vec::new(alloc);
    let package_values = objects_at(value, Key::Packages)?;
    let link_values = objects_or_none(&*value, Key::Links, &none)?;
    let workspace_value = object_at(value, Key::Workspace)?;
    let group_values = objects_or_none(&*value, Key::Groups, &none)?;
    let default_filter = optional_text_at(alloc, value, Key::DefaultFilter)?;
    let packages = each_of::<PackageRecord>(alloc, package_values)?;
    let links = each_of::<LinkRecord>(alloc, link_values)?;
    let workspace = workspace_of(alloc, workspace_value)?;
    let groups = each_of::<GroupRecord>(alloc, group_values)?;
    Ok(WorkspaceRecord {
        packages,
        links,
        workspace,
        groups,
        default_filter,
    })
}
