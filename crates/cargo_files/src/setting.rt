//! The settings of a platform, as `rustc --print cfg` lists them.

ghost use Rattle.std.specs.Prelude.{◌≡◌};
ghost use Rattle.std.specs.List.{list_any};
ghost use Rattle.cargo_files.specs.Settings as spec;

use std::marker::Model;

/// A setting of a platform: its name, and its value if it has one.
#[derive(Debug, Drop)]
pub struct CfgSetting {
    pub name: String,
    pub value: Option<String>,
}

impl Model for CfgSetting {
    ghost use Rattle.std.specs.Prelude.{option_map, string_bytes};
    ghost use Rattle.cargo_files.specs.Settings.{Setting};

    ghost Value = { Setting };

    ghost view = { λ s. record { name = string_bytes s.name; value = option_map string_bytes s.value } };
}

/// Whether the name is set, with no value.
pub(crate) fn has_name(settings: &[CfgSetting], name: &[u8]) -> bool
    ensures { result ≡ list_any (spec.is_name name.now) settings.now }
{
    settings.iter().any(|setting| setting.value.is_none() && setting.name.as_bytes() == name)
}

/// Whether the name is set to the value.
pub(crate) fn has_pair(settings: &[CfgSetting], name: &[u8], value: &[u8]) -> bool
    ensures { result ≡ list_any (spec.is_pair name.now value.now) settings.now }
{
    settings.iter().any(|setting| match &setting.value {
        Some(own) => own.as_bytes() == value && setting.name.as_bytes() == name,
        None => false,
    })
}
