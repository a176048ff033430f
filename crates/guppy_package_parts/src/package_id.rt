//! The ids of packages.

ghost use Rattle.std.specs.Prelude.{◌≡◌, IfOk, string_bytes};

use std::alloc::{AllocError, Global};
use std::cmp::Ordering;
use std::fmt;
use std::hash::{Hash, Hasher};
use std::marker::Model;

/// The id of a package: a text that no other package of its graph has.
#[derive(Debug, Drop)]
pub struct PackageId {
    text: String,
}

impl Model for PackageId {
    ghost use Rattle.std.specs.Prelude.{string_bytes};
    ghost use Rattle.workspace_record.specs.Records.{Text};

    ghost Value = { Text };

    ghost view = { λ p. string_bytes p.text };
}

impl PartialEq for PackageId {
    ghost use Rattle.workspace_record.specs.Equality.{equivalence, text_eq, texts_decide};
    ghost use Rattle.std.specs.Cmp.{partial_equiv_from_equiv};

    ghost eq = { text_eq };

    ghost laws = { partial_equiv_from_equiv (equivalence texts_decide) };

    fn eq(&self, other: &PackageId) -> bool {
        self.text == other.text
    }
}

impl Eq for PackageId {
    ghost use Rattle.workspace_record.specs.Equality.{equivalence, texts_decide};

    ghost laws = { equivalence texts_decide };
}

impl PartialOrd for PackageId {
    ghost use Rattle.std.specs.Ordering.{as_partial_cmp};
    ghost use Rattle.list_facts.specs.Ascending.{text_cmp};
    ghost use Rattle.guppy_package_parts.specs.PackageIds.{ids_in_order};

    ghost partial_cmp = { as_partial_cmp text_cmp };

    ghost laws = { ids_in_order };

    fn partial_cmp(&self, other: &PackageId) -> Option<Ordering> {
        Some(self.cmp(other))
    }
}

impl Ord for PackageId {
    ghost use Rattle.std.proofs.Common.{refl};
    ghost use Rattle.std.specs.Cmp.Lexicographic.{nat_list_cmp_total, texts_ties};
    ghost use Rattle.list_facts.specs.Ascending.{text_cmp};

    ghost cmp = { text_cmp };

    ghost total = { nat_list_cmp_total };

    ghost matches_partial_cmp = { λ a b. refl };

    ghost matches_eq = { texts_ties };

    fn cmp(&self, other: &PackageId) -> Ordering {
        self.text.cmp(&other.text)
    }
}

impl Hash for PackageId {
    ghost use Rattle.std.specs.Hash as fed;
    ghost use Rattle.guppy_package_parts.specs.PackageIds.{same_id_writes};

    ghost hash_input = { fed.str };

    ghost respects_eq = { same_id_writes };

    fn hash<H: Hasher>(&self, state: &mut H) {
        self.text.hash(state);
    }
}

impl fmt::Display for PackageId {
    ghost use Rattle.std.specs.Prelude.{Some};

    ghost output = { λ id. Some id };

    fn fmt<W: fmt::Write>(&self, f: &mut fmt::Formatter<W>) -> fmt::Result {
        f.write_str(self.text.as_str())
    }
}

impl PackageId {
    /// The id with this text.
    pub fn new(text: String) -> PackageId
        ensures { result ≡ string_bytes text }
    {
        PackageId { text }
    }

    /// The id's text.
    pub fn repr(&self) -> &str
        ensures { result.now ≡ self.now }
    {
        self.text.as_str()
    }

    /// An equal id in memory of its own.
    pub fn copy(&self, alloc: Global) -> Result<PackageId, AllocError>
        ensures { IfOk result (λ id. id ≡ self.now) }
    {
        let text = String::from_str(alloc, self.text.as_str())?;
        Ok(PackageId { text })
    }
}
