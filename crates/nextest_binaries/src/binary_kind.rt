//! The kinds of test binaries.

use std::marker::Model;

/// The kind of a binary, as Cargo calls it.
#[derive(Debug, Drop)]
pub struct RustTestBinaryKind {
    text: String,
}

impl Model for RustTestBinaryKind {
    ghost use Rattle.std.specs.Prelude.{string_bytes};
    ghost use Rattle.workspace_record.specs.Records.{Text};

    ghost Value = { Text };

    ghost view = { λ k. string_bytes k.text };
}

impl PartialEq for RustTestBinaryKind {
    ghost use Rattle.workspace_record.specs.Equality.{equivalence, text_eq, texts_decide};
    ghost use Rattle.std.specs.Cmp.{partial_equiv_from_equiv};

    ghost eq = { text_eq };

    ghost laws = { partial_equiv_from_equiv (equivalence texts_decide) };

    fn eq(&self, other: &RustTestBinaryKind) -> bool {
        self.text == other.text
    }
}

impl Eq for RustTestBinaryKind {
    ghost use Rattle.workspace_record.specs.Equality.{equivalence, texts_decide};

    ghost laws = { equivalence texts_decide };
}

impl RustTestBinaryKind {
    ghost use Rattle.std.specs.Prelude.{◌≡◌, string_bytes};

    /// A library's own tests.
    pub const LIB: &'static str = "lib";
    /// A procedural macro's own tests.
    pub const PROC_MACRO: &'static str = "proc-macro";
    /// A test target.
    pub const TEST: &'static str = "test";
    /// A benchmark.
    pub const BENCH: &'static str = "bench";
    /// A program's own tests.
    pub const BIN: &'static str = "bin";
    /// An example's own tests.
    pub const EXAMPLE: &'static str = "example";

    /// The kind with this text.
    pub fn new(text: String) -> RustTestBinaryKind
        ensures kind { result ≡ string_bytes text }
    {
        RustTestBinaryKind { text }
    }

    /// The kind's text.
    pub fn as_str(&self) -> &str
        ensures text { result.now ≡ self.now }
    {
        self.text.as_str()
    }
}
