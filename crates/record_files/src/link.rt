//! Links read from a record's file.

ghost use Rattle.std.specs.Prelude.{◌≡◌};
ghost use Rattle.record_files.specs.Links.{line_kind};

use crate::error::ReadError;
use crate::key::Key;
use crate::object::{
    FromValue, each_of, flag_or, given, objects_at, optional_text_at, text_at, text_or, texts_at,
};
use json::Value;
use std::alloc::Global;
use workspace_record::{LineKind, LineRecord, LinkRecord};

/// The requirement of a link that gives none.
const ANY_VERSION: &str = "*";

impl FromValue for LinkRecord {
    ghost use Rattle.record_files.specs.Links.{link_of};

    ghost read = { link_of };

    #[tactic(auto, unfolding(crate::specs::Links::link_of))]
    fn from_value(alloc: Global, value: &Value<'_>) -> Result<LinkRecord, ReadError> {
        let from = text_at(alloc, value, Key::From)?;
        let to = text_at(alloc, value, Key::To)?;
        let name = text_at(alloc, value, Key::Name)?;
        let requirement = text_or(alloc, value, Key::Requirement, ANY_VERSION)?;
        let registry = optional_text_at(alloc, value, Key::Registry)?;
        let path = optional_text_at(alloc, value, Key::Path)?;
        let lines = each_of::<LineRecord>(alloc, objects_at(value, Key::Lines)?)?;
        Ok(LinkRecord {
            from,
            to,
            name,
            requirement,
            lines,
            registry,
            path,
        })
    }
}

impl FromValue for LineRecord {
    ghost use Rattle.record_files.specs.Links.{line_of};

    ghost read = { line_of };

    #[tactic(auto, unfolding(crate::specs::Links::line_of))]
    fn from_value(alloc: Global, value: &Value<'_>) -> Result<LineRecord, ReadError> {
        let kind = match given(value, Key::Kind) {
            None => LineKind::Normal,
            Some(name) => {
                let kind = name.as_str().and_then(line_kind);
                kind.ok_or(ReadError::at(Key::Kind))?
            }
        };
        let optional = flag_or(value, Key::Optional, false)?;
        let default_features = flag_or(value, Key::DefaultFeatures, true)?;
        let features = texts_at(alloc, value, Key::Features)?;
        let spec = optional_text_at(alloc, value, Key::Spec)?;
        Ok(LineRecord {
            kind,
            optional,
            default_features,
            features,
            spec,
        })
    }
}

fn line_kind(name: &str) -> Option<LineKind>
    ensures { result ≡ line_kind name.now }
{
    match name {
        "normal" => Some(LineKind::Normal),
        "build" => Some(LineKind::Build),
        "dev" => Some(LineKind::Dev),
        _ => None,
    }
}
