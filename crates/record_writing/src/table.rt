//! Tables of a platform written as files.

ghost use Rattle.std.specs.Prelude.{◌≡◌, IfOk, map, string_bytes};
ghost use Rattle.std.specs.String.{string_eq};
ghost use Rattle.indexmap.specs.IndexMap.{IsUnique};
ghost use Rattle.serde_json.specs.Data.{no_members};
ghost use Rattle.serde_json.specs.View.{members_view, view};
ghost use Rattle.workspace_record.specs.Tables.{answered, entry_of};
ghost use Rattle.record_writing.specs.Files.{ReadsAsTable};
ghost use Rattle.record_writing.specs.Maps.{answer_member, table_data};
ghost use Rattle.record_writing.specs.Members.{put_all};

use crate::object::{Member, object_of, with_member};
use indexmap::IndexMap;
use serde_json::{Map, Value, put};
use std::alloc::{AllocError, Global};
use workspace_record::PlatformTable;

/// The file of a table, with a line for each answer, in the order of the specs' bytes.
pub fn table_text(alloc: Global, table: &PlatformTable) -> Result<String, AllocError>
    ensures reads { IfOk result (λ text. ReadsAsTable table.now (string_bytes text)) }
{
    let value = table_value(alloc, table)?;
    value.to_string_pretty(alloc)
}

fn table_value(alloc: Global, table: &PlatformTable) -> Result<Value, AllocError>
    ensures value { IfOk result (λ v. view v
        ≡ table_data (answered table.now) table.now.unknown_counts) }
    ensures unique { IfOk result (λ _. IsUnique string_eq table.now.answers) }
{
    let members = [("unknown_counts", Member::Flag(table.unknown_counts))];
    let answers = Value::Object(answers_object(alloc, &table.answers)?);
    let own = object_of(alloc, &members)?;
    Ok(Value::Object(with_member(alloc, own, "answers", answers)?))
}

fn answers_object(
    alloc: Global,
    answers: &IndexMap<String, bool>,
) -> Result<Map<String, Value>, AllocError>
    ensures members { IfOk result (λ m. members_view m.entries
        ≡ put_all (map answer_member (map entry_of answers.now.entries)) no_members) }
    ensures unique { IfOk result (λ _. IsUnique string_eq answers.now) }
{
    let mut object = Map::new(alloc);
    for (spec, answer) in answers.iter() {
        put(&mut object, alloc, spec.as_str(), Value::Bool(*answer))?;
    }
    Ok(object)
}
