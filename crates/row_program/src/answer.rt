//! What comes of a row.

use crate::fault::RowFault;
use serde_json::Value;
use std::alloc::{AllocError, Global};
use std::fmt::Display;

/// What came of a row, each text under the key by which rows say what they want of it. Where a key has
/// several texts, each is to be the expected one. A row for one of whose texts there was no memory was not
/// run: `refused` says so, and those who keep a text need not ask.
#[derive(Drop)]
pub struct Answers {
    alloc: Global,
    pub(crate) items: Vec<Answer>,
    pub(crate) refused: bool,
}

#[derive(Drop)]
pub(crate) struct Answer {
    pub(crate) key: &'static str,
    pub(crate) text: String,
}

impl Answers {
    pub(crate) fn new(alloc: Global) -> Answers {
        Answers {
            alloc,
            items: Vec::new(alloc),
            refused: false,
        }
    }

    /// Keeps a text, for which there may have been no memory.
    pub fn keep(&mut self, key: &'static str, text: Result<String, AllocError>) {
        match text {
            Ok(text) => self.refused |= self.items.push(Answer { key, text }).is_err(),
            Err(_) => self.refused = true,
        }
    }

    /// Keeps what a value prints.
    pub fn show<T: Display>(&mut self, key: &'static str, value: &T) {
        self.keep(key, format!(in self.alloc; "{value}"));
    }

    /// Keeps what a value prints, for which there may have been no memory.
    pub fn made<T: Display + Drop>(&mut self, key: &'static str, value: Result<T, AllocError>) {
        match value {
            Ok(value) => self.show(key, &value),
            Err(_) => self.refused = true,
        }
    }

    /// Keeps what is answered, or why nothing is.
    pub fn told<T: Display + Drop, E: Display + Drop>(
        &mut self,
        key: &'static str,
        answer: Result<T, E>,
    ) {
        self.begin(key);
        self.answered("", answer);
    }

    /// Keeps what the items print, parted by spaces.
    pub fn list<T: Display + Drop>(
        &mut self,
        key: &'static str,
        items: Result<Vec<T>, AllocError>,
    ) {
        match items {
            Ok(items) => self.words(key, &items),
            Err(_) => self.refused = true,
        }
    }

    /// As `list`, of items that there are.
    pub fn words<T: Display>(&mut self, key: &'static str, items: &[T]) {
        self.begin(key);
        for item in items {
            self.part(" ", item);
        }
    }

    /// Keeps the text that was written, if it was.
    pub fn written(&mut self, key: &'static str, bytes: Vec<u8>, is_written: bool) {
        match String::from_utf8(bytes) {
            Ok(text) if is_written => self.keep(key, Ok(text)),
            Ok(_) => self.show(key, &"not written"),
            Err(_) => self.show(key, &"not UTF-8"),
        }
    }

    /// Begins a text, to which parts are added.
    pub fn begin(&mut self, key: &'static str) {
        self.keep(key, Ok(String::new(self.alloc)));
    }

    /// Adds what a value prints to the text that was kept last, behind `between` where it is not empty.
    pub fn part<T: Display>(&mut self, between: &str, value: &T) {
        if let Some(answer) = self.items.last_mut() {
            let between = if answer.text.is_empty() { "" } else { between };
            self.refused |= write!(answer.text, "{between}{value}").is_err();
        }
    }

    /// As `part`, of what is answered, or of why nothing is.
    pub fn answered<T: Display + Drop, E: Display + Drop>(
        &mut self,
        between: &str,
        answer: Result<T, E>,
    ) {
        match answer {
            Ok(answer) => self.part(between, &answer),
            Err(error) => self.part(between, &error),
        }
    }

    /// Adds what a value prints.
    pub fn add<T: Display>(&mut self, value: &T) {
        if let Some(answer) = self.items.last_mut() {
            self.refused |= write!(answer.text, "{value}").is_err();
        }
    }
}

impl Answer {
    /// Whether this is what was expected: a text or a number is expected as it stands, of a list of texts
    /// each is to stand somewhere in it, and null expects nothing.
    pub(crate) fn is_expected(&self, alloc: Global, expected: &Value) -> Result<bool, RowFault> {
        if expected.is_null() {
            return Ok(true);
        }
        if let Some(text) = expected.as_str() {
            return Ok(self.text.as_str() == text);
        }
        if let Some(parts) = expected.as_array() {
            return self.holds_each(parts.as_slice());
        }
        let printed = expected.to_string(alloc)?;
        Ok(self.text == printed)
    }

    fn holds_each(&self, parts: &[Value]) -> Result<bool, RowFault> {
        for part in parts {
            match part.as_str() {
                Some(part) if self.text.as_str().contains(part) => {}
                Some(_) => return Ok(false),
                None => return Err(RowFault::Key(self.key)),
            }
        }
        Ok(true)
    }
}
