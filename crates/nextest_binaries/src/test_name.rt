//! The names of tests.

use std::marker::Model;

/// The name of a test, as its binary lists it.
#[derive(Debug, Drop)]
pub struct TestCaseName {
    text: String,
}

impl Model for TestCaseName {
    ghost use Rattle.std.specs.Prelude.{string_bytes};
    ghost use Rattle.workspace_record.specs.Records.{Text};

    ghost Value = { Text };

    ghost view = { λ n. string_bytes n.text };
}

impl PartialEq for TestCaseName {
    ghost use Rattle.workspace_record.specs.Equality.{equivalence, text_eq, texts_decide};
    ghost use Rattle.std.specs.Cmp.{partial_equiv_from_equiv};

    ghost eq = { text_eq };

    ghost laws = { partial_equiv_from_equiv (equivalence texts_decide) };

    fn eq(&self, other: &TestCaseName) -> bool {
        self.text == other.text
    }
}

impl Eq for TestCaseName {
    ghost use Rattle.workspace_record.specs.Equality.{equivalence, texts_decide};

    ghost laws = { equivalence texts_decide };
}

impl TestCaseName {
    ghost use Rattle.std.specs.Prelude.{◌≡◌, string_bytes};

    /// The name with this text.
    pub fn new(text: String) -> TestCaseName
        ensures name { result ≡ string_bytes text }
    {
        TestCaseName { text }
    }

    /// The name's text.
    pub fn as_str(&self) -> &str
        ensures text { result.now ≡ self.now }
    {
        self.text.as_str()
    }
}
