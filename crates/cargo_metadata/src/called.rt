//! Faults at the keys of a package, which name the package.

ghost use Rattle.std.specs.Prelude.{◌≡◌, IfOk, option_map};
ghost use Rattle.serde_json.specs.View.{view};
ghost use Rattle.cargo_metadata.specs.Called.{called, key_fault, text_under};
ghost use Rattle.cargo_metadata.specs.Outcomes.{IsFault};

use crate::error::MetadataError;
use crate::key::Key;
use crate::object::given;
use serde_json::Value;
use std::alloc::{AllocError, Global};

/// The error of a package whose value at this key is missing or of the wrong kind.
pub(crate) fn at_package(
    alloc: Global,
    value: &Value,
    key: Key,
) -> Result<MetadataError, AllocError>
    ensures { IfOk result (λ e. IsFault e (key_fault (called (view value.now)) key)) }
{
    match called(value) {
        None => Ok(MetadataError::at(key)),
        Some(name) => Ok(MetadataError::BadPackage(String::from_str(alloc, name)?, key)),
    }
}

/// What a package is called.
fn called(value: &Value) -> Option<&str>
    ensures { option_map (λ t. t.now) result ≡ called (view value.entry.now) }
{
    text_under(value, Key::Name).or(text_under(value, Key::Id))
}

fn text_under(value: &Value, key: Key) -> Option<&str>
    ensures { option_map (λ t. t.now) result ≡ text_under key (view value.entry.now) }
{
    given(value, key).and_then(Value::as_str)
}
