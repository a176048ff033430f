//! Settings read from what `rustc --print cfg` prints.

ghost use Rattle.std.specs.Prelude.{◌≡◌, ◌<◌, ◌++◌, List, Some, IfErr, IfOk, length, string_bytes};
ghost use Rattle.cargo_files.specs.Printed.{AreSettings, RefusesLine, RefusesSettings, RefusesText, setting_in, settings_in};
ghost use Rattle.cargo_files.specs.Settings.{Setting};

use crate::bytes::{Run, run_end};
use crate::head::{Head, head_of};
use crate::setting::CfgSetting;
use std::alloc::{AllocError, AllocFailed, Global};
use std::{fmt, str};

/// Why settings are not read.
#[derive(Debug, Drop, PartialEq, Eq)]
pub enum SettingsError {
    /// The line that begins at this byte is neither `NAME` nor `NAME="VALUE"`.
    Line(usize),
    /// A name or a value is not UTF-8.
    NotText,
    /// There was no memory for the settings.
    Memory,
}

impl fmt::Display for SettingsError {
    fn fmt<W: fmt::Write>(&self, f: &mut fmt::Formatter<W>) -> fmt::Result {
        match self {
            SettingsError::Line(at) => write!(f, "byte {at}: expected NAME or NAME=\"VALUE\""),
            SettingsError::NotText => f.write_str("a name or a value is not UTF-8"),
            SettingsError::Memory => f.write_str("out of memory"),
        }
    }
}

impl From<AllocError> for SettingsError {
    ghost use Rattle.std.specs.Prelude.{◌≡◌};
    ghost use Rattle.cargo_files.specs.declared.settings.SettingsError.TheVariants.{Memory};

    ghost from_gives = { λ _ e. e ≡ Memory };

    fn from(_refused: AllocError) -> SettingsError {
        SettingsError::Memory
    }
}

impl<T: Drop> From<AllocFailed<T>> for SettingsError {
    ghost use Rattle.std.specs.Prelude.{◌≡◌};
    ghost use Rattle.cargo_files.specs.declared.settings.SettingsError.TheVariants.{Memory};

    ghost from_gives = { λ _ e. e ≡ Memory };

    fn from(_refused: AllocFailed<T>) -> SettingsError {
        SettingsError::Memory
    }
}

/// Reads the settings of a platform as `rustc --print cfg` prints them: a `NAME` or a `NAME="VALUE"`
/// on each line that is not blank.
pub fn read_settings(alloc: Global, text: &[u8]) -> Result<Vec<CfgSetting>, SettingsError>
    ensures read { IfOk result (λ v. AreSettings text.now 0 v.items) }
    ensures refused { IfErr result (RefusesSettings text.now) }
{
    let mut settings = Vec::new(alloc);
    let mut at = 0;
    while at < text.len() {
        let end = run_end(Run::Line, text, at);
        push_setting(alloc, &mut settings, &text[at..end], at)?;
        at = end + 1;
    }
    Ok(settings)
}

/// Adds the setting of a line that begins at a place, if it is not blank.
fn push_setting(
    alloc: Global,
    settings: &mut Vec<CfgSetting>,
    line: &[u8],
    at: usize,
) -> Result<(), SettingsError>
    ensures pushed { IfOk result (λ _. (more : List Setting)
        × (settings.new.items ≡ settings.old.items ++ more) × (settings_in line.now ≡ Some more)) }
    ensures refused { IfErr result (λ e. (0 < length line.now) × RefusesLine line.now at e) }
{
    if line.is_empty() {
        return Ok(());
    }
    settings.push(setting_of(alloc, line, at)?)?;
    Ok(())
}

/// The setting that a line is.
#[tactic(auto, unfolding(crate::specs::Printed::setting_in))]
fn setting_of(alloc: Global, line: &[u8], at: usize) -> Result<CfgSetting, SettingsError>
    ensures ok { IfOk result (λ s. setting_in line.now ≡ Some s) }
    ensures refused { IfErr result (RefusesLine line.now at) }
{
    match head_of(line, 0) {
        Head::Name(start, end) if end == line.len() => {
            let name = text_of(alloc, &line[start..end])?;
            Ok(CfgSetting { name, value: None })
        }
        Head::Pair(start, end, opens, closes) if closes + 1 == line.len() => {
            let name = text_of(alloc, &line[start..end])?;
            let value = Some(text_of(alloc, &line[opens..closes])?);
            Ok(CfgSetting { name, value })
        }
        _ => Err(SettingsError::Line(at)),
    }
}

/// The text of some bytes.
fn text_of(alloc: Global, bytes: &[u8]) -> Result<String, SettingsError>
    ensures ok { IfOk result (λ s. string_bytes s ≡ bytes.now) }
    ensures refused { IfErr result (RefusesText bytes.now) }
{
    match str::from_utf8(bytes) {
        Ok(text) => Ok(String::from_str(alloc, text)?),
        Err(_) => Err(SettingsError::NotText),
    }
}
