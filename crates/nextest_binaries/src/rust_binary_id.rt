//! The ids of test binaries.

use crate::binary_ids::binary_id;
use crate::binary_kind::RustTestBinaryKind;
use std::alloc::{AllocError, Global};
use std::marker::Model;

/// The id of a test binary.
#[derive(Debug, Drop)]
pub struct RustBinaryId {
    text: String,
}

impl Model for RustBinaryId {
    ghost use Rattle.std.specs.Prelude.{string_bytes};
    ghost use Rattle.workspace_record.specs.Records.{Text};

    ghost Value = { Text };

    ghost view = { λ id. string_bytes id.text };
}

impl PartialEq for RustBinaryId {
    ghost use Rattle.workspace_record.specs.Equality.{equivalence, text_eq, texts_decide};
    ghost use Rattle.std.specs.Cmp.{partial_equiv_from_equiv};

    ghost eq = { text_eq };

    ghost laws = { partial_equiv_from_equiv (equivalence texts_decide) };

    fn eq(&self, other: &RustBinaryId) -> bool {
        self.text == other.text
    }
}

impl Eq for RustBinaryId {
    ghost use Rattle.workspace_record.specs.Equality.{equivalence, texts_decide};

    ghost laws = { equivalence texts_decide };
}

impl RustBinaryId {
    ghost use Rattle.std.specs.Prelude.{◌≡◌, IfOk, string_bytes};
    ghost use Rattle.nextest_binaries.specs.BinaryIds.{binary_id};

    /// The id with this text.
    pub fn new(text: String) -> RustBinaryId
        ensures id { result ≡ string_bytes text }
    {
        RustBinaryId { text }
    }

    /// The id's text.
    pub fn as_str(&self) -> &str
        ensures text { result.now ≡ self.now }
    {
        self.text.as_str()
    }

    /// The id that nextest gives the binary of a target: by the package for its library, by package
    /// and name for a test, else by package, kind and name.
    pub fn from_parts(
        alloc: Global,
        package_name: &str,
        kind: &RustTestBinaryKind,
        target_name: &str,
    ) -> Result<RustBinaryId, AllocError>
        ensures parts { IfOk result (λ id. id ≡ binary_id package_name.now kind.now
            target_name.now) }
    {
        let text = binary_id(alloc, package_name, kind.as_str(), target_name)?;
        Ok(RustBinaryId { text })
    }
}
