//! Links as values of a record's file.

ghost use Rattle.std.specs.Prelude.{◌≡◌, IfOk, map};
ghost use Rattle.serde_json.specs.View.{view};
ghost use Rattle.record_writing.specs.Rows.{line_data, line_kind_name, link_data};

use crate::object::{Member, Written, object_of, values_of, with_member};
use serde_json::Value;
use std::alloc::{AllocError, Global};
use workspace_record::{LineKind, LineRecord, LinkRecord};

impl Written for LinkRecord {
    ghost use Rattle.record_writing.specs.Rows.{link_data};

    ghost object = { link_data };

    fn written(&self, alloc: Global) -> Result<Value, AllocError> {
        let members = [
            ("from", Member::Text(self.from.as_str())),
            ("to", Member::Text(self.to.as_str())),
            ("name", Member::Text(self.name.as_str())),
            ("requirement", Member::Text(self.requirement.as_str())),
            ("registry", Member::OptionalText(&self.registry)),
            ("path", Member::OptionalText(&self.path)),
        ];
        let lines = Value::Array(values_of(alloc, &self.lines)?);
        let own = object_of(alloc, &members)?;
        Ok(Value::Object(with_member(alloc, own, "lines", lines)?))
    }
}

impl Written for LineRecord {
    ghost use Rattle.record_writing.specs.Rows.{line_data};

    ghost object = { line_data };

    fn written(&self, alloc: Global) -> Result<Value, AllocError> {
        let members = [
            ("kind", Member::Text(line_kind_name(self.kind))),
            ("optional", Member::Flag(self.optional)),
            ("default_features", Member::Flag(self.default_features)),
            ("features", Member::Texts(&self.features)),
            ("spec", Member::OptionalText(&self.spec)),
        ];
        Ok(Value::Object(object_of(alloc, &members)?))
    }
}

fn line_kind_name(kind: LineKind) -> &'static str
    ensures { result.now ≡ line_kind_name kind }
{
    match kind {
        LineKind::Normal => "normal",
        LineKind::Build => "build",
        LineKind::Dev => "dev",
    }
}
