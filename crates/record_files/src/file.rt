//! The bytes of a file read as one value.

ghost use Rattle.record_files.specs.Files.{Parses};

use crate::error::ReadError;
use crate::number::has_numbers;
use json::{Error, Reader, Scratch, Value};
use std::alloc::Global;

/// How deep arrays and objects may nest, as in `serde_json`.
const MAX_DEPTH: usize = 127;

/// The value that a file is. The file lends its texts, and `scratch` those that are escaped.
pub(crate) fn value_of<'a>(
    alloc: Global,
    bytes: &'a [u8],
    scratch: &'a mut Scratch,
) -> Result<Value<'a>, ReadError>
    ensures { Parses bytes.now result }
{
    let Ok(text) = simdutf8::compat::from_utf8(bytes) else {
        return Err(ReadError::BadJson);
    };
    let Ok(mut reader) = Reader::new(text, scratch) else {
        return Err(ReadError::Memory);
    };
    let value = match Value::read(alloc, &mut reader, MAX_DEPTH) {
        Ok(value) => value,
        Err(Error::OutOfMemory) => return Err(ReadError::Memory),
        Err(_) => return Err(ReadError::BadJson),
    };
    if reader.next().is_some() {
        return Err(ReadError::BadJson);
    }
    if has_numbers(&value) {
        Ok(value)
    } else {
        Err(ReadError::BadJson)
    }
}
