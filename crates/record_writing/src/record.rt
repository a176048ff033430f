//! Records written as files.

ghost use Rattle.std.specs.Prelude.{◌≡◌, IfOk, Ok, string_bytes};
ghost use Rattle.serde_json.specs.View.{view};
ghost use Rattle.record_files.specs.Files.{Reads};
ghost use Rattle.record_files.specs.Records.{record_file};
ghost use Rattle.record_writing.specs.Files.{without_metadata};
ghost use Rattle.record_writing.specs.Rows.{record_data};

use crate::object::{Member, object_of, values_of, with_member};
use crate::workspace::workspace_value;
use serde_json::Value;
use std::alloc::{AllocError, Global};
use workspace_record::WorkspaceRecord;

/// The file of a record, in one line, with the keys of each object in the order of their bytes. The
/// metadata of packages and of the workspace are left out.
pub fn record_text(alloc: Global, record: &WorkspaceRecord) -> Result<String, AllocError>
    ensures reads { IfOk result (λ text. Reads record_file (string_bytes text)
        (Ok (without_metadata «record».now))) }
{
    let value = record_value(alloc, record)?;
    value.to_string(alloc)
}

fn record_value(alloc: Global, record: &WorkspaceRecord) -> Result<Value, AllocError>
    ensures { IfOk result (λ v. view v ≡ record_data «record».now) }
{
    let members = [(
        "default_filter",
        Member::OptionalText(&record.default_filter),
    )];
    let own = object_of(alloc, &members)?;
    let packages = Value::Array(values_of(alloc, &record.packages)?);
    let own = with_member(alloc, own, "packages", packages)?;
    let links = Value::Array(values_of(alloc, &record.links)?);
    let own = with_member(alloc, own, "links", links)?;
    let workspace = workspace_value(alloc, &record.workspace)?;
    let own = with_member(alloc, own, "workspace", workspace)?;
    let groups = Value::Array(values_of(alloc, &record.groups)?);
    Ok(Value::Object(with_member(alloc, own, "groups", groups)?))
}
