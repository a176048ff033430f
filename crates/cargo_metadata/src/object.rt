//! Values as texts, flags and lists, and the values at the keys of an object.

ghost use Rattle.std.specs.Prelude.{◌≡◌, IfOk, Result, is_some, map, option_map, string_bytes};
ghost use Rattle.std.specs.List.{list_all};
ghost use Rattle.serde_json.specs.Data.{Data};
ghost use Rattle.serde_json.specs.Find.{as_object};
ghost use Rattle.serde_json.specs.View.{view, items_view};
ghost use Rattle.cargo_metadata.specs.Faults.{Fault};
ghost use Rattle.cargo_metadata.specs.Outcomes.{Gives};
ghost use Rattle.cargo_metadata.specs.Values.{each, given, text_of, as_texts, text_at, optional_text_at, texts_of, texts_at, texts_or_none, optional_texts_at, flag_at, objects_at};

use crate::error::MetadataError;
use crate::key::Key;
use serde_json::Value;
use std::alloc::{AllocError, Global};

/// The value under a key; null stands for none.
pub(crate) fn given(value: &Value, key: Key) -> Option<&Value>
    ensures { option_map (λ v. view v.now) result ≡ given key (view value.entry.now) }
{
    match value.get(key.as_str()) {
        None | Some(Value::Null) => None,
        found => found,
    }
}

pub(crate) fn text_of(alloc: Global, value: &Value, key: Key) -> Result<String, MetadataError>
    ensures { Gives string_bytes result (text_of key (view value.now)) }
{
    match value.as_str() {
        None => Err(MetadataError::at(key)),
        Some(text) => Ok(String::from_str(alloc, text)?),
    }
}

pub(crate) fn text_at(alloc: Global, value: &Value, key: Key) -> Result<String, MetadataError>
    ensures { Gives string_bytes result (text_at key (view value.now)) }
{
    match given(value, key) {
        None => Err(MetadataError::at(key)),
        Some(value) => text_of(alloc, value, key),
    }
}

pub(crate) fn optional_text_at(
    alloc: Global,
    value: &Value,
    key: Key,
) -> Result<Option<String>, MetadataError>
    ensures { Gives (option_map string_bytes) result (optional_text_at key (view value.now)) }
{
    match given(value, key) {
        None => Ok(None),
        Some(value) => Ok(Some(text_of(alloc, value, key)?)),
    }
}

pub(crate) fn flag_at(value: &Value, key: Key) -> Result<bool, MetadataError>
    ensures { Gives (λ b. b) result (flag_at key (view value.now)) }
{
    match given(value, key) {
        None => Err(MetadataError::at(key)),
        Some(value) => value.as_bool().ok_or(MetadataError::at(key)),
    }
}

/// The texts of a list, if the value is one.
pub(crate) fn as_texts(alloc: Global, value: &Value) -> Result<Option<Vec<String>>, AllocError>
    ensures { IfOk result (λ o. option_map (λ v. map string_bytes v.items) o
        ≡ as_texts (view value.now)) }
{
    let Some(values) = value.as_array() else {
        return Ok(None);
    };
    let mut texts = Vec::new(alloc);
    for value in values {
        let Some(text) = value.as_str() else {
            return Ok(None);
        };
        texts.push(String::from_str(alloc, text)?)?;
    }
    Ok(Some(texts))
}

pub(crate) fn texts_of(alloc: Global, value: &Value, key: Key) -> Result<Vec<String>, MetadataError>
    ensures { Gives (λ v. map string_bytes v.items) result (texts_of key (view value.now)) }
{
    as_texts(alloc, value)?.ok_or(MetadataError::at(key))
}

pub(crate) fn texts_at(alloc: Global, value: &Value, key: Key) -> Result<Vec<String>, MetadataError>
    ensures { Gives (λ v. map string_bytes v.items) result (texts_at key (view value.now)) }
{
    match given(value, key) {
        None => Err(MetadataError::at(key)),
        Some(value) => texts_of(alloc, value, key),
    }
}

/// As `texts_at`, but absent is the empty list.
pub(crate) fn texts_or_none(
    alloc: Global,
    value: &Value,
    key: Key,
) -> Result<Vec<String>, MetadataError>
    ensures { Gives (λ v. map string_bytes v.items) result (texts_or_none key (view value.now)) }
{
    match given(value, key) {
        None => Ok(Vec::new(alloc)),
        Some(value) => texts_of(alloc, value, key),
    }
}

pub(crate) fn optional_texts_at(
    alloc: Global,
    value: &Value,
    key: Key,
) -> Result<Option<Vec<String>>, MetadataError>
    ensures { Gives (option_map (λ v. map string_bytes v.items)) result
        (optional_texts_at key (view value.now)) }
{
    match given(value, key) {
        None => Ok(None),
        Some(value) => Ok(Some(texts_of(alloc, value, key)?)),
    }
}

fn all_objects(values: &[Value]) -> bool
    ensures { result ≡ list_all (λ v. is_some (as_object (view v))) values.now }
{
    values.iter().all(Value::is_object)
}

#[tactic(auto, using(crate::proofs::Lists::all_objects_seen))]
pub(crate) fn objects_at(value: &Value, key: Key) -> Result<&[Value], MetadataError>
    ensures { Gives (λ v. items_view v.now) result (objects_at key (view value.entry.now)) }
{
    match given(value, key).and_then(Value::as_array) {
        Some(values) if all_objects(values) => Ok(values),
        _ => Err(MetadataError::at(key)),
    }
}

/// What is read of each value of a list.
pub(crate) trait FromValue: Drop {
    ghost read: { Data → Result Self Fault };

    /// What is read of the value.
    fn from_value(alloc: Global, value: &Value) -> Result<Self, MetadataError>
        ensures { Gives (λ x. x) result (read (view value.now)) };
}

/// What is read of the values, in their order.
pub(crate) fn each_of<T: FromValue>(
    alloc: Global,
    values: &[Value],
) -> Result<Vec<T>, MetadataError>
    ensures { Gives (λ v. v.items) result (each T.read (items_view values.now)) }
{
    let mut read = Vec::new(alloc);
    for value in values {
        read.push(T::from_value(alloc, value)?)?;
    }
    Ok(read)
}
