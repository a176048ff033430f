//! Names of what is missing or of the wrong kind.

use crate::key::Key;
use std::fmt;

// A binary's id is told apart from a key, so an id that is spelled as a key is not taken for one. A wrong
// answer of a table is a fault of `answers`, since a spec is no name that a user gave.
/// What is missing or of the wrong kind.
#[derive(Debug, Drop, PartialEq, Eq)]
pub enum Field {
    /// The value under a key of a format, or an element of the list or object under it.
    Key(Key),
    /// The listing of the binary with this id.
    Binary(String),
}

impl fmt::Display for Field {
    ghost use Rattle.std.specs.Prelude.{Some};
    ghost use Rattle.record_files.specs.Faults.{fault_of, fault_text};

    ghost output = { λ field. Some (fault_text (fault_of field)) };

    fn fmt<W: fmt::Write>(&self, f: &mut fmt::Formatter<W>) -> fmt::Result {
        match self {
            Field::Key(key) => f.write_str(key.as_str()),
            Field::Binary(id) => f.write_str(id.as_str()),
        }
    }
}
