//! Metadata of packages and workspaces, which is kept as JSON text.

ghost use Rattle.std.specs.Prelude.{◌≡◌, IfOk, option_map, string_bytes};
ghost use Rattle.json.specs.Value.{members_view as tree_members};
ghost use Rattle.serde_json.specs.Data.{no_members};
ghost use Rattle.serde_json.specs.View.{view, items_view, members_view};
ghost use Rattle.serde_json.specs.Written.{has_float, items_have_float, members_have_float};
ghost use Rattle.record_files.specs.declared.key.Key.TheVariants as key;
ghost use Rattle.record_files.specs.Outcomes.{Gives};
ghost use Rattle.record_files.specs.Trees.{seen, seen_items, members_data};
ghost use Rattle.record_files.specs.Values.{optional_json_at};

use crate::error::ReadError;
use crate::key::Key;
use crate::number::number_or;
use crate::object::given;
use serde_json::{Map, Value};
use std::alloc::{AllocError, Global};

/// The metadata of an object, as JSON with no blanks. It may be any value without a float: how a
/// float is written is not fixed.
pub(crate) fn metadata_at(
    alloc: Global,
    value: &json::Value<'_>,
) -> Result<Option<String>, ReadError>
    ensures { Gives (option_map string_bytes) result
        (optional_json_at key.Metadata (seen value.now)) }
{
    let Some(value) = given(value, Key::Metadata) else {
        return Ok(None);
    };
    let value = owned(alloc, value)?;
    if has_float(&value) {
        return Err(ReadError::at(Key::Metadata));
    }
    Ok(Some(value.to_string(alloc)?))
}

/// The value with texts of its own; of a key that comes twice the last member counts.
#[cycle(owned)]
fn owned(alloc: Global, value: &json::Value<'_>) -> Result<Value, AllocError>
    ensures { IfOk result (λ v. view v ≡ seen value.now) }
{
    match value {
        json::Value::Null => Ok(Value::Null),
        json::Value::Bool(b) => Ok(Value::Bool(*b)),
        json::Value::Number(text) => Ok(Value::Number(number_or(text))),
        json::Value::String(text) => Ok(Value::String(String::from_str(alloc, text)?)),
        json::Value::Array(values) => Ok(Value::Array(owned_items(alloc, values)?)),
        json::Value::Object(members) => Ok(Value::Object(owned_members(alloc, members)?)),
    }
}

#[cycle(owned)]
fn owned_items(alloc: Global, values: &Vec<json::Value<'_>>) -> Result<Vec<Value>, AllocError>
    ensures { IfOk result (λ v. items_view v.items ≡ seen_items values.now.items) }
{
    let mut found = Vec::with_capacity(alloc, values.len())?;
    for value in values {
        found.push(owned(alloc, value)?)?;
    }
    Ok(found)
}

#[cycle(owned)]
fn owned_members(
    alloc: Global,
    members: &Vec<(&str, json::Value<'_>)>,
) -> Result<Map<String, Value>, AllocError>
    ensures { IfOk result
        (λ m. members_view m.entries ≡ members_data (tree_members members.now.items) no_members) }
{
    let mut found = Map::new(alloc);
    for member in members {
        let name = String::from_str(alloc, member.0)?;
        drop(found.insert(name, owned(alloc, &member.1)?)?);
    }
    Ok(found)
}

#[cycle(floats)]
fn has_float(value: &Value) -> bool
    ensures { result ≡ has_float (view value.now) }
{
    match value {
        Value::Null | Value::Bool(_) | Value::String(_) => false,
        Value::Number(number) => number.is_f64(),
        Value::Array(values) => items_have_float(values),
        Value::Object(members) => members_have_float(members),
    }
}

#[cycle(floats)]
fn items_have_float(values: &Vec<Value>) -> bool
    ensures { result ≡ items_have_float (items_view values.now.items) }
{
    for value in values {
        if has_float(value) {
            return true;
        }
    }
    false
}

#[cycle(floats)]
fn members_have_float(members: &Map<String, Value>) -> bool
    ensures { result ≡ members_have_float (members_view members.now.entries) }
{
    for member in members {
        if has_float(member.1) {
            return true;
        }
    }
    false
}
