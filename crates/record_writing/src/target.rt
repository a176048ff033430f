//! Targets as values of a record's file.

ghost use Rattle.std.specs.Prelude.{◌≡◌, IfOk, map};
ghost use Rattle.serde_json.specs.View.{view};
ghost use Rattle.record_writing.specs.Rows.{target_data, target_kind_name};

use crate::object::{Member, Written, object_of};
use serde_json::Value;
use std::alloc::{AllocError, Global};
use workspace_record::{TargetKind, TargetRecord};

impl Written for TargetRecord {
    ghost use Rattle.record_writing.specs.Rows.{target_data};

    ghost object = { target_data };

    fn written(&self, alloc: Global) -> Result<Value, AllocError> {
        let info = &self.info;
        let members = [
            ("kind", Member::Text(target_kind_name(self.kind))),
            ("name", Member::Text(self.name.as_str())),
            ("required_features", Member::Texts(&self.required_features)),
            ("tested", Member::Flag(self.tested)),
            ("path", Member::Text(info.path.as_str())),
            ("edition", Member::Text(info.edition.as_str())),
            ("crate_types", Member::Texts(&info.crate_types)),
            ("doc", Member::Flag(info.doc)),
            ("doctest", Member::Flag(info.doctest)),
        ];
        Ok(Value::Object(object_of(alloc, &members)?))
    }
}

fn target_kind_name(kind: TargetKind) -> &'static str
    ensures { result.now ≡ target_kind_name kind }
{
    match kind {
        TargetKind::Lib => "lib",
        TargetKind::ProcMacro => "proc-macro",
        TargetKind::Test => "test",
        TargetKind::Bench => "bench",
        TargetKind::Bin => "bin",
        TargetKind::Example => "example",
        TargetKind::BuildScript => "build-script",
    }
}
