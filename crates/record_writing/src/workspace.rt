//! The workspace as a value of a record's file.

ghost use Rattle.std.specs.Prelude.{◌≡◌, IfOk, map};
ghost use Rattle.serde_json.specs.View.{view};
ghost use Rattle.record_writing.specs.Rows.{group_data, member_data, workspace_data};

use crate::object::{Member, Written, object_of, values_of, with_member};
use serde_json::Value;
use std::alloc::{AllocError, Global};
use workspace_record::{GroupRecord, MemberRecord, WorkspaceInfo};

/// What a workspace says of itself, and its members; none of its metadata is written.
pub(crate) fn workspace_value(alloc: Global, workspace: &WorkspaceInfo) -> Result<Value, AllocError>
    ensures { IfOk result (λ v. view v ≡ workspace_data workspace.now) }
{
    let members = [
        ("root", Member::Text(workspace.root.as_str())),
        (
            "target_directory",
            Member::Text(workspace.target_directory.as_str()),
        ),
        (
            "build_directory",
            Member::OptionalText(&workspace.build_directory),
        ),
        ("default_members", Member::Texts(&workspace.default_members)),
    ];
    let rows = Value::Array(values_of(alloc, &workspace.members)?);
    let own = object_of(alloc, &members)?;
    Ok(Value::Object(with_member(alloc, own, "members", rows)?))
}

impl Written for MemberRecord {
    ghost use Rattle.record_writing.specs.Rows.{member_data};

    ghost object = { member_data };

    fn written(&self, alloc: Global) -> Result<Value, AllocError> {
        let members = [
            ("package", Member::Text(self.package.as_str())),
            ("path", Member::Text(self.path.as_str())),
        ];
        Ok(Value::Object(object_of(alloc, &members)?))
    }
}

impl Written for GroupRecord {
    ghost use Rattle.record_writing.specs.Rows.{group_data};

    ghost object = { group_data };

    fn written(&self, alloc: Global) -> Result<Value, AllocError> {
        let members = [
            ("name", Member::Text(self.name.as_str())),
            ("filter", Member::Text(self.filter.as_str())),
        ];
        Ok(Value::Object(object_of(alloc, &members)?))
    }
}
