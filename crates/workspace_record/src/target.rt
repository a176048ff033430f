//! The targets of packages.

ghost use Rattle.std.specs.Prelude.{◌≡◌, IfOk};

use crate::kinds::TargetKind;
use crate::texts::same_texts;
use list_facts::copy_texts;
use std::alloc::{AllocError, Global};
use std::marker::Model;

/// A target's remaining metadata.
#[derive(Debug, Drop)]
pub struct TargetInfo {
    pub path: String,
    pub edition: String,
    pub crate_types: Vec<String>,
    pub doc: bool,
    pub doctest: bool,
}

impl Model for TargetInfo {
    ghost use Rattle.std.specs.Prelude.{map, string_bytes};
    ghost use Rattle.workspace_record.specs.Records.{TargetDetails};

    ghost Value = { TargetDetails };

    ghost view = { λ t. record {
      path = string_bytes t.path;
      edition = string_bytes t.edition;
      crate_types = map string_bytes t.crate_types.items;
      doc = t.doc;
      doctest = t.doctest;
    } };
}

impl PartialEq for TargetInfo {
    ghost use Rattle.workspace_record.specs.RecordEquality.{target_details_eq, target_details_decide};
    ghost use Rattle.workspace_record.specs.Equality.{equivalence};
    ghost use Rattle.std.specs.Cmp.{partial_equiv_from_equiv};

    ghost eq = { target_details_eq };

    ghost laws = { partial_equiv_from_equiv (equivalence target_details_decide) };

    fn eq(&self, other: &TargetInfo) -> bool {
        self.path == other.path
            && self.edition == other.edition
            && same_texts(&self.crate_types, &other.crate_types)
            && self.doc == other.doc
            && self.doctest == other.doctest
    }
}

impl Eq for TargetInfo {
    ghost use Rattle.workspace_record.specs.RecordEquality.{target_details_decide};
    ghost use Rattle.workspace_record.specs.Equality.{equivalence};

    ghost laws = { equivalence target_details_decide };
}

impl TargetInfo {
    /// An equal value in memory of its own.
    pub fn copy(&self, alloc: Global) -> Result<TargetInfo, AllocError>
        ensures { IfOk result (λ t. t ≡ self.now) }
    {
        let path = String::from_str(alloc, self.path.as_str())?;
        let edition = String::from_str(alloc, self.edition.as_str())?;
        let crate_types = copy_texts(alloc, &self.crate_types)?;
        let (doc, doctest) = (self.doc, self.doctest);
        Ok(TargetInfo {
            path,
            edition,
            crate_types,
            doc,
            doctest,
        })
    }
}

/// A target of a package: what Cargo builds of it. A target that is `tested` is a test binary, or
/// has one made of its unit tests.
#[derive(Debug, Drop)]
pub struct TargetRecord {
    pub kind: TargetKind,
    pub name: String,
    pub required_features: Vec<String>,
    pub tested: bool,
    pub info: TargetInfo,
}

impl Model for TargetRecord {
    ghost use Rattle.std.specs.Prelude.{map, string_bytes};
    ghost use Rattle.workspace_record.specs.Records.{Target};

    ghost Value = { Target };

    ghost view = { λ t. record {
      kind = t.kind;
      name = string_bytes t.name;
      required_features = map string_bytes t.required_features.items;
      tested = t.tested;
      info = t.info;
    } };
}

impl PartialEq for TargetRecord {
    ghost use Rattle.workspace_record.specs.RecordEquality.{target_eq, targets_decide};
    ghost use Rattle.workspace_record.specs.Equality.{equivalence};
    ghost use Rattle.std.specs.Cmp.{partial_equiv_from_equiv};

    ghost eq = { target_eq };

    ghost laws = { partial_equiv_from_equiv (equivalence targets_decide) };

    fn eq(&self, other: &TargetRecord) -> bool {
        self.kind == other.kind
            && self.name == other.name
            && same_texts(&self.required_features, &other.required_features)
            && self.tested == other.tested
            && self.info == other.info
    }
}

impl Eq for TargetRecord {
    ghost use Rattle.workspace_record.specs.RecordEquality.{targets_decide};
    ghost use Rattle.workspace_record.specs.Equality.{equivalence};

    ghost laws = { equivalence targets_decide };
}

impl TargetRecord {
    /// An equal value in memory of its own.
    pub fn copy(&self, alloc: Global) -> Result<TargetRecord, AllocError>
        ensures { IfOk result (λ t. t ≡ self.now) }
    {
        let name = String::from_str(alloc, self.name.as_str())?;
        let required_features = copy_texts(alloc, &self.required_features)?;
        let info = self.info.copy(alloc)?;
        Ok(TargetRecord {
            kind: self.kind,
            name,
            required_features,
            tested: self.tested,
            info,
        })
    }
}
