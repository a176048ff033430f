//! Platforms, as rows tell of them.

use guppy_package_parts::{Platform, PlatformSpec};
use row_program::{Row, RowFault};
use serde_json::Value;
use std::alloc::Global;

/// A platform by its answers, an object of truth values by spec.
#[derive(Clone, Copy)]
pub(crate) struct RowPlatform<'a> {
    answers: &'a Value,
}

impl Platform for RowPlatform<'_> {
    ghost use Rattle.std.specs.Prelude.{option_and_then};
    ghost use Rattle.serde_json.specs.Find.{as_bool, get};
    ghost use Rattle.serde_json.specs.View.{view};

    ghost answers = { λ p spec. option_and_then as_bool (get spec (view p.answers.now)) };

    fn answer(&self, spec: &str) -> Option<bool> {
        self.answers.get(spec).and_then(Value::as_bool)
    }
}

/// The platforms of a row: `always`, `any`, or a list of platforms.
pub(crate) fn platforms_of<'a>(
    alloc: Global,
    row: Row<'a>,
) -> Result<PlatformSpec<RowPlatform<'a>>, RowFault> {
    match row.get("platforms").and_then(Value::as_str) {
        Some("any") => Ok(PlatformSpec::Any),
        Some(_) => Ok(PlatformSpec::Always),
        None => {
            let mut platforms = Vec::new(alloc);
            for answers in row.list("platforms")? {
                platforms.push(RowPlatform { answers })?;
            }
            Ok(PlatformSpec::platforms(platforms))
        }
    }
}
