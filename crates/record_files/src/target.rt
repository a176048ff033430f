//! Targets read from a record's file.

ghost use Rattle.std.specs.Prelude.{◌≡◌};
ghost use Rattle.record_files.specs.Packages.{target_kind};

use crate::edition::DEFAULT_EDITION;
use crate::error::ReadError;
use crate::key::Key;
use crate::object::{FromValue, flag_or, given, text_at, text_or, texts_at};
use json::Value;
use std::alloc::Global;
use workspace_record::{TargetInfo, TargetKind, TargetRecord};

impl FromValue for TargetRecord {
    ghost use Rattle.record_files.specs.Packages.{target_of};

    ghost read = { target_of };

    #[tactic(auto, unfolding(crate::specs::Packages::target_of))]
    fn from_value(alloc: Global, value: &Value<'_>) -> Result<TargetRecord, ReadError> {
        let kind = given(value, Key::Kind).and_then(Value::as_str);
        let kind = kind.and_then(target_kind).ok_or(ReadError::at(Key::Kind))?;
        let name = text_at(alloc, value, Key::Name)?;
        let required_features = texts_at(alloc, value, Key::RequiredFeatures)?;
        let tested = flag_or(value, Key::Tested, true)?;
        let path = text_or(alloc, value, Key::Path, "")?;
        let edition = text_or(alloc, value, Key::Edition, DEFAULT_EDITION)?;
        let crate_types = texts_at(alloc, value, Key::CrateTypes)?;
        let doc = flag_or(value, Key::Doc, false)?;
        let doctest = flag_or(value, Key::Doctest, false)?;
        let info = TargetInfo {
            path,
            edition,
            crate_types,
            doc,
            doctest,
        };
        Ok(TargetRecord {
            kind,
            name,
            required_features,
            tested,
            info,
        })
    }
}

fn target_kind(name: &str) -> Option<TargetKind>
    ensures { result ≡ target_kind name.now }
{
    match name {
        "lib" => Some(TargetKind::Lib),
        "proc-macro" => Some(TargetKind::ProcMacro),
        "test" => Some(TargetKind::Test),
        "bench" => Some(TargetKind::Bench),
        "bin" => Some(TargetKind::Bin),
        "example" => Some(TargetKind::Example),
        "build-script" => Some(TargetKind::BuildScript),
        _ => None,
    }
}
