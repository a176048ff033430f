//! Dependencies with the lines that declare them.

ghost use Rattle.std.specs.Prelude.{◌≡◌, [], IfOk};

use crate::kinds::LineKind;
use crate::texts::{copy_each, copy_text, same_text, same_texts};
use list_facts::copy_texts;
use std::alloc::{AllocError, Global};
use std::marker::Model;

/// One declaration of a dependency, in one section of a manifest. `spec` is the platform that it is
/// for, and `None` means every platform.
#[derive(Debug, Drop)]
pub struct LineRecord {
    pub kind: LineKind,
    pub optional: bool,
    pub default_features: bool,
    pub features: Vec<String>,
    pub spec: Option<String>,
}

impl Model for LineRecord {
    ghost use Rattle.std.specs.Prelude.{map, option_map, string_bytes};
    ghost use Rattle.workspace_record.specs.Records.{Line};

    ghost Value = { Line };

    ghost view = { λ l. record {
      kind = l.kind;
      optional = l.optional;
      default_features = l.default_features;
      features = map string_bytes l.features.items;
      spec = option_map string_bytes l.spec;
    } };
}

impl PartialEq for LineRecord {
    ghost use Rattle.workspace_record.specs.RecordEquality.{line_eq, lines_decide};
    ghost use Rattle.workspace_record.specs.Equality.{equivalence};
    ghost use Rattle.std.specs.Cmp.{partial_equiv_from_equiv};

    ghost eq = { line_eq };

    ghost laws = { partial_equiv_from_equiv (equivalence lines_decide) };

    fn eq(&self, other: &LineRecord) -> bool {
        self.kind == other.kind
            && self.optional == other.optional
            && self.default_features == other.default_features
            && same_texts(&self.features, &other.features)
            && same_text(&self.spec, &other.spec)
    }
}

impl Eq for LineRecord {
    ghost use Rattle.workspace_record.specs.RecordEquality.{lines_decide};
    ghost use Rattle.workspace_record.specs.Equality.{equivalence};

    ghost laws = { equivalence lines_decide };
}

impl LineRecord {
    /// An equal value in memory of its own.
    pub fn copy(&self, alloc: Global) -> Result<LineRecord, AllocError>
        ensures { IfOk result (λ l. l ≡ self.now) }
    {
        Ok(LineRecord {
            kind: self.kind,
            optional: self.optional,
            default_features: self.default_features,
            features: copy_texts(alloc, &self.features)?,
            spec: copy_text(alloc, &self.spec)?,
        })
    }
}

/// A dependency of one package on another, under the name that the first gives it, with its lines.
/// `from` and `to` are package ids.
#[derive(Debug, Drop)]
pub struct LinkRecord {
    pub from: String,
    pub to: String,
    pub name: String,
    pub requirement: String,
    pub lines: Vec<LineRecord>,
    pub registry: Option<String>,
    pub path: Option<String>,
}

impl Model for LinkRecord {
    ghost use Rattle.std.specs.Prelude.{map, option_map, string_bytes};
    ghost use Rattle.workspace_record.specs.Records.{Link};

    ghost Value = { Link };

    ghost view = { λ l. record {
      from = string_bytes l.from;
      to = string_bytes l.to;
      name = string_bytes l.name;
      requirement = string_bytes l.requirement;
      lines = l.lines.items;
      registry = option_map string_bytes l.registry;
      path = option_map string_bytes l.path;
    } };
}

impl PartialEq for LinkRecord {
    ghost use Rattle.workspace_record.specs.RecordEquality.{link_eq, links_decide};
    ghost use Rattle.workspace_record.specs.Equality.{equivalence};
    ghost use Rattle.std.specs.Cmp.{partial_equiv_from_equiv};

    ghost eq = { link_eq };

    ghost laws = { partial_equiv_from_equiv (equivalence links_decide) };

    fn eq(&self, other: &LinkRecord) -> bool {
        self.from == other.from
            && self.to == other.to
            && self.name == other.name
            && self.requirement == other.requirement
            && self.lines == other.lines
            && same_text(&self.registry, &other.registry)
            && same_text(&self.path, &other.path)
    }
}

impl Eq for LinkRecord {
    ghost use Rattle.workspace_record.specs.RecordEquality.{links_decide};
    ghost use Rattle.workspace_record.specs.Equality.{equivalence};

    ghost laws = { equivalence links_decide };
}

impl LinkRecord {
    /// An equal value in memory of its own.
    pub fn copy(&self, alloc: Global) -> Result<LinkRecord, AllocError>
        ensures { IfOk result (λ l. l ≡ self.now) }
    {
        let lines = copy_each(alloc, &self.lines, |line| line.copy(alloc))?;
        let mut link = self.copy_without_lines(alloc)?;
        link.lines = lines;
        Ok(link)
    }

    /// The link without its lines, in memory of its own.
    pub(crate) fn copy_without_lines(&self, alloc: Global) -> Result<LinkRecord, AllocError>
        ensures { IfOk result (λ l. l ≡ record self.now { lines = [] }) }
    {
        Ok(LinkRecord {
            from: String::from_str(alloc, self.from.as_str())?,
            to: String::from_str(alloc, self.to.as_str())?,
            name: String::from_str(alloc, self.name.as_str())?,
            requirement: String::from_str(alloc, self.requirement.as_str())?,
            lines: Vec::new(alloc),
            registry: copy_text(alloc, &self.registry)?,
            path: copy_text(alloc, &self.path)?,
        })
    }
}

/// Equal rows in memory of their own.
pub fn copy_links(alloc: Global, links: &[LinkRecord]) -> Result<Vec<LinkRecord>, AllocError>
    ensures { IfOk result (λ v. v.items ≡ links.now) }
{
    copy_each(alloc, links, |link| link.copy(alloc))
}
