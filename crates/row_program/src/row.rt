//! Rows, and what stands under their keys.

use crate::fault::RowFault;
use serde_json::Value;
use std::alloc::{AllocError, Global};

/// A row of a file, and the group that it stands in.
#[derive(Clone, Copy)]
pub struct Row<'a> {
    pub(crate) own: &'a Value,
    pub(crate) group: Option<&'a Value>,
}

impl<'a> Row<'a> {
    /// What the row says under this key, or else its group.
    pub fn get(&self, key: &str) -> Option<&'a Value> {
        match self.own.get(key) {
            Some(value) => Some(value),
            None => self.group?.get(key),
        }
    }

    /// The text under this key.
    pub fn text(&self, key: &'static str) -> Result<&'a str, RowFault> {
        match self.get(key).and_then(Value::as_str) {
            Some(text) => Ok(text),
            None => Err(RowFault::Key(key)),
        }
    }

    /// The file that the value under this key stands for.
    pub fn printed(&self, alloc: Global, key: &'static str) -> Result<String, RowFault> {
        match self.get(key) {
            Some(value) => Ok(file_text(alloc, value)?),
            None => Err(RowFault::Key(key)),
        }
    }

    /// The texts under this key; none where the key is absent.
    pub fn texts(&self, alloc: Global, key: &'static str) -> Result<Vec<&'a str>, RowFault> {
        let mut texts = Vec::new(alloc);
        for value in self.list(key)? {
            match value.as_str() {
                Some(text) => texts.push(text)?,
                None => return Err(RowFault::Key(key)),
            }
        }
        Ok(texts)
    }

    /// The whole numbers under this key; none where the key is absent.
    pub fn numbers(&self, alloc: Global, key: &'static str) -> Result<Vec<usize>, RowFault> {
        let mut numbers = Vec::new(alloc);
        for value in self.list(key)? {
            match value.as_u64() {
                Some(number) => numbers.push(number as usize)?,
                None => return Err(RowFault::Key(key)),
            }
        }
        Ok(numbers)
    }

    /// The list under this key; an empty one where the key is absent.
    pub fn list(&self, key: &'static str) -> Result<&'a [Value], RowFault> {
        match self.get(key) {
            None => Ok(&[]),
            Some(value) => match value.as_array() {
                Some(values) => Ok(values.as_slice()),
                None => Err(RowFault::Key(key)),
            },
        }
    }

    /// The file with this name under `files`, of the row or else of its group.
    pub fn file(&self, alloc: Global, name: &str) -> Result<Option<String>, AllocError> {
        match self.file_value(name) {
            None => Ok(None),
            Some(value) => Ok(Some(file_text(alloc, value)?)),
        }
    }

    /// What stands for the file with this name.
    pub fn file_value(&self, name: &str) -> Option<&'a Value> {
        match self.own.get("files").and_then(|files| files.get(name)) {
            Some(value) => Some(value),
            None => self.group?.get("files")?.get(name),
        }
    }
}

/// The file that a value stands for: a text as it stands, another value as the JSON that it is.
pub fn file_text(alloc: Global, value: &Value) -> Result<String, AllocError> {
    match value.as_str() {
        Some(text) => String::from_str(alloc, text),
        None => value.to_string(alloc),
    }
}
