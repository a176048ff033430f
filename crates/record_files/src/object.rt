//! Values as texts, flags and lists, and the values at the keys of an object.

ghost use Rattle.std.specs.Prelude.{◌≡◌, [], IfOk, Result, map, is_some, option_map, string_bytes};
ghost use Rattle.std.specs.List.{list_all};
ghost use Rattle.serde_json.specs.Data.{Data};
ghost use Rattle.serde_json.specs.Find.{get, as_array, as_object};
ghost use Rattle.record_files.specs.Faults.{Fault};
ghost use Rattle.record_files.specs.Outcomes.{Gives};
ghost use Rattle.record_files.specs.Trees.{seen, seen_items};
ghost use Rattle.record_files.specs.Values.{given, text_of, each, as_texts, text_at, optional_text_at, text_or, texts_of, texts_at, optional_texts_at, flag_of, flag_or, object_of, object_at, objects_of, objects_at, objects_or_none};

use crate::error::ReadError;
use crate::key::Key;
use json::Value;
use std::alloc::{AllocError, Global};

/// The value of the last member of a name.
fn found<'v, 'a>(value: &'v Value<'a>, name: &str) -> Option<&'v Value<'a>>
    ensures { option_map (λ v. seen v.now) result ≡ get name.now (seen value.entry.now) }
{
    value.get(name)
}

/// The value under a key; null stands for none.
pub(crate) fn given<'v, 'a>(value: &'v Value<'a>, key: Key) -> Option<&'v Value<'a>>
    ensures { option_map (λ v. seen v.now) result ≡ given key (seen value.entry.now) }
{
    match found(value, key.as_str()) {
        None | Some(Value::Null) => None,
        found => found,
    }
}

pub(crate) fn text_of(alloc: Global, value: &Value<'_>, key: Key) -> Result<String, ReadError>
    ensures { Gives string_bytes result (text_of key (seen value.now)) }
{
    match value.as_str() {
        None => Err(ReadError::at(key)),
        Some(text) => Ok(String::from_str(alloc, text)?),
    }
}

pub(crate) fn text_at(alloc: Global, value: &Value<'_>, key: Key) -> Result<String, ReadError>
    ensures { Gives string_bytes result (text_at key (seen value.now)) }
{
    match given(value, key) {
        None => Err(ReadError::at(key)),
        Some(value) => text_of(alloc, value, key),
    }
}

pub(crate) fn optional_text_at(
    alloc: Global,
    value: &Value<'_>,
    key: Key,
) -> Result<Option<String>, ReadError>
    ensures { Gives (option_map string_bytes) result (optional_text_at key (seen value.now)) }
{
    match given(value, key) {
        None => Ok(None),
        Some(value) => Ok(Some(text_of(alloc, value, key)?)),
    }
}

pub(crate) fn text_or(
    alloc: Global,
    value: &Value<'_>,
    key: Key,
    default: &str,
) -> Result<String, ReadError>
    ensures { Gives string_bytes result (text_or default.now key (seen value.now)) }
{
    match given(value, key) {
        None => Ok(String::from_str(alloc, default)?),
        Some(value) => text_of(alloc, value, key),
    }
}

pub(crate) fn flag_of(value: &Value<'_>, key: Key) -> Result<bool, ReadError>
    ensures { Gives (λ b. b) result (flag_of key (seen value.now)) }
{
    value.as_bool().ok_or(ReadError::at(key))
}

pub(crate) fn flag_or(value: &Value<'_>, key: Key, default: bool) -> Result<bool, ReadError>
    ensures { Gives (λ b. b) result (flag_or default key (seen value.now)) }
{
    match given(value, key) {
        None => Ok(default),
        Some(value) => flag_of(value, key),
    }
}

/// The elements of the value, if it is a list.
pub(crate) fn as_array<'v, 'a>(value: &'v Value<'a>) -> Option<&'v Vec<Value<'a>>>
    ensures { option_map (λ v. seen_items v.now.items) result ≡ as_array (seen value.entry.now) }
{
    match value {
        Value::Array(values) => Some(values),
        _ => None,
    }
}

fn is_object(value: &Value<'_>) -> bool
    ensures { result ≡ is_some (as_object (seen value.now)) }
{
    matches!(value, Value::Object(_))
}

/// The texts of a list, if the value is one.
pub(crate) fn as_texts(alloc: Global, value: &Value<'_>) -> Result<Option<Vec<String>>, AllocError>
    ensures { IfOk result (λ o. option_map (λ v. map string_bytes v.items) o
        ≡ as_texts (seen value.now)) }
{
    let Some(values) = as_array(value) else {
        return Ok(None);
    };
    let mut texts = Vec::with_capacity(alloc, values.len())?;
    for value in values {
        let Some(text) = value.as_str() else {
            return Ok(None);
        };
        texts.push(String::from_str(alloc, text)?)?;
    }
    Ok(Some(texts))
}

pub(crate) fn texts_of(alloc: Global, value: &Value<'_>, key: Key) -> Result<Vec<String>, ReadError>
    ensures { Gives (λ v. map string_bytes v.items) result (texts_of key (seen value.now)) }
{
    as_texts(alloc, value)?.ok_or(ReadError::at(key))
}

pub(crate) fn texts_at(alloc: Global, value: &Value<'_>, key: Key) -> Result<Vec<String>, ReadError>
    ensures { Gives (λ v. map string_bytes v.items) result (texts_at key (seen value.now)) }
{
    match given(value, key) {
        None => Ok(Vec::new(alloc)),
        Some(value) => texts_of(alloc, value, key),
    }
}

pub(crate) fn optional_texts_at(
    alloc: Global,
    value: &Value<'_>,
    key: Key,
) -> Result<Option<Vec<String>>, ReadError>
    ensures { Gives (option_map (λ v. map string_bytes v.items)) result
        (optional_texts_at key (seen value.now)) }
{
    match given(value, key) {
        None => Ok(None),
        Some(value) => Ok(Some(texts_of(alloc, value, key)?)),
    }
}

/// The value itself, if it is an object.
pub(crate) fn object_of<'v, 'a>(value: &'v Value<'a>, key: Key) -> Result<&'v Value<'a>, ReadError>
    ensures { Gives (λ v. seen v.now) result (object_of key (seen value.entry.now)) }
{
    if is_object(value) {
        Ok(value)
    } else {
        Err(ReadError::at(key))
    }
}

pub(crate) fn object_at<'v, 'a>(value: &'v Value<'a>, key: Key) -> Result<&'v Value<'a>, ReadError>
    ensures { Gives (λ v. seen v.now) result (object_at key (seen value.entry.now)) }
{
    match given(value, key) {
        None => Err(ReadError::at(key)),
        Some(value) => object_of(value, key),
    }
}

fn all_objects(values: &[Value<'_>]) -> bool
    ensures { result ≡ list_all (λ v. is_some (as_object (seen v))) values.now }
{
    values.iter().all(is_object)
}

#[tactic(auto, using(crate::proofs::Lists::all_objects_seen))]
fn objects_of<'v, 'a>(value: &'v Value<'a>, key: Key) -> Result<&'v Vec<Value<'a>>, ReadError>
    ensures { Gives (λ v. seen_items v.now.items) result (objects_of key (seen value.entry.now)) }
{
    match as_array(value) {
        Some(values) if all_objects(values) => Ok(values),
        _ => Err(ReadError::at(key)),
    }
}

pub(crate) fn objects_at<'v, 'a>(
    value: &'v Value<'a>,
    key: Key,
) -> Result<&'v Vec<Value<'a>>, ReadError>
    ensures { Gives (λ v. seen_items v.now.items) result (objects_at key (seen value.entry.now)) }
{
    match given(value, key) {
        None => Err(ReadError::at(key)),
        Some(value) => objects_of(value, key),
    }
}

/// As `objects_at`, but absent is `none`, an empty list.
pub(crate) fn objects_or_none<'v, 'a>(
    value: &'v Value<'a>,
    key: Key,
    none: &'v Vec<Value<'a>>,
) -> Result<&'v Vec<Value<'a>>, ReadError>
    ensures { none.entry.now.items ≡ []
        → Gives (λ v. seen_items v.now.items) result (objects_or_none key (seen value.entry.now)) }
{
    match given(value, key) {
        None => Ok(none),
        Some(value) => objects_of(value, key),
    }
}

/// What is read of each value of a list.
pub(crate) trait FromValue: Drop {
    ghost read: { Data → Result Self Fault };

    /// What is read of the value.
    fn from_value(alloc: Global, value: &Value<'_>) -> Result<Self, ReadError>
        ensures { Gives (λ x. x) result (read (seen value.now)) };
}

/// What is read of the values, in their order.
pub(crate) fn each_of<T: FromValue>(
    alloc: Global,
    values: &[Value<'_>],
) -> Result<Vec<T>, ReadError>
    ensures { Gives (λ v. v.items) result (each T.read (seen_items values.now)) }
{
    let mut read = Vec::with_capacity(alloc, values.len())?;
    for value in values {
        read.push(T::from_value(alloc, value)?)?;
    }
    Ok(read)
}
