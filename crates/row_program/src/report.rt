//! What is told of a row that differs.

use crate::answer::Answer;
use crate::row::Row;
use serde_json::Value;
use std::alloc::Global;
use std::fmt::Display;

/// The lines on a row that differs. Lines for which there is no memory are left out: the row is counted all
/// the same.
#[derive(Drop)]
pub(crate) struct Report<'a> {
    name: &'a str,
    pub(crate) text: String,
}

impl<'a> Report<'a> {
    pub(crate) fn of(alloc: Global, row: Row<'a>) -> Report<'a> {
        let name = row.get("name").and_then(Value::as_str);
        Report {
            name: name.unwrap_or("a row without a name"),
            text: String::new(alloc),
        }
    }

    /// Adds a line behind the row's name.
    pub(crate) fn line<T: Display>(&mut self, told: &T) {
        let _ = writeln!(self.text, "{}: {told}", self.name);
    }

    /// Adds what was expected, and what came.
    pub(crate) fn differs(&mut self, answer: &Answer, expected: &Value) {
        self.line(&answer.key);
        let _ = writeln!(self.text, "  expected {expected}");
        let _ = writeln!(self.text, "  came   {:?}", answer.text);
    }
}
