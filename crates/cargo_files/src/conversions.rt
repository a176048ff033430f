//! Records, tables and choices.

ghost use Rattle.std.specs.Prelude.{◌≡◌, IfErr, IfOk, IfSome, find, option_copied, string_bytes};
ghost use Rattle.cargo_files.specs.Printed.{AreSettings};
ghost use Rattle.cargo_files.specs.TableAnswers.{IsRefusal, specs_of};
ghost use Rattle.cargo_files.specs.Choices.{IsChoiceFile, IsChoiceOf};
ghost use Rattle.cargo_files.specs.Made.{IsRecordFile, IsTableFile};
ghost use Rattle.cargo_files.specs.Refused.{RefusesChoice, RefusesLinks, RefusesMetadata, RefusesPlatform, RefusesTable, RefusesWords, has_spec};

use crate::cfg_table::{TableError, table_of};
use crate::choosing::{FeatureWords, choice_of};
use crate::refusal::{Refusal, SpecPlace};
use crate::setting::CfgSetting;
use crate::settings::read_settings;
use crate::splitting::feature_words;
use cargo_metadata::read_metadata;
use cargo_record::{RequestedMembers, record_of};
use record_files::read_record;
use record_writing::{choice_text, record_text, table_text};
use std::alloc::{AllocError, Global};
use workspace_record::{LinkRecord, WorkspaceRecord};

/// The record of what `cargo metadata` printed, of which these members are asked about.
pub fn record_file(
    alloc: Global,
    metadata: &[u8],
    wanted: RequestedMembers<'_>,
) -> Result<String, Refusal>
    ensures made { IfOk result (λ text. IsRecordFile metadata.now wanted.entry
        (string_bytes text)) }
    ensures refused { IfErr result (RefusesMetadata metadata.now wanted.entry) }
{
    let metadata = read_metadata(alloc, metadata)?;
    match record_of(alloc, &metadata, wanted) {
        Ok(record) => {
            let text = record_text(alloc, &record);
            drop((record, metadata));
            Ok(text?)
        }
        Err(fault) => {
            drop(metadata);
            Err(Refusal::from(fault))
        }
    }
}

/// The settings of a platform that `rustc --print cfg` printed.
pub fn settings_file(alloc: Global, printed: &[u8]) -> Result<Vec<CfgSetting>, Refusal>
    ensures read { IfOk result (λ v. AreSettings printed.now 0 v.items) }
    ensures refused { IfErr result (RefusesPlatform printed.now) }
{
    Ok(read_settings(alloc, printed)?)
}

/// The table of a record for a target with these settings.
pub fn table_file(
    alloc: Global,
    record: &[u8],
    triple: &str,
    settings: &[CfgSetting],
) -> Result<String, Refusal>
    ensures made { IfOk result (λ text. IsTableFile «record».now triple.now settings.now
        (string_bytes text)) }
    ensures refused { IfErr result (RefusesTable «record».now) }
{
    let record = read_record(alloc, record)?;
    match table_of(alloc, &record, triple, settings) {
        Ok(table) => {
            let text = table_text(alloc, &table);
            drop((table, record));
            Ok(text?)
        }
        Err(error) => {
            let refusal = table_refusal(alloc, &record.links, error);
            drop(record);
            Err(refusal?)
        }
    }
}

/// Why there is no table, with the package and the dependency that has the spec.
fn table_refusal(
    alloc: Global,
    links: &[LinkRecord],
    error: TableError,
) -> Result<Refusal, AllocError>
    ensures { IfOk result (λ r. IsRefusal (specs_of links.now) error → RefusesLinks links.now r) }
{
    let TableError::Spec(spec, fault) = error else {
        return Ok(Refusal::Memory);
    };
    let (owner, dependency) = names_with(alloc, links, spec.as_str())?;
    Ok(Refusal::Spec(SpecPlace {
        owner,
        dependency,
        spec,
        fault,
    }))
}

/// The package and the dependency of the first link that has the spec.
fn names_with(
    alloc: Global,
    links: &[LinkRecord],
    spec: &str,
) -> Result<(String, String), AllocError>
    ensures { IfOk result (λ names. IfSome (find (has_spec spec.now) links.now)
        (λ l. (string_bytes names.0 ≡ l.from) × (string_bytes names.1 ≡ l.name))) }
{
    let Some(link) = link_with(links, spec) else {
        return Ok((String::new(alloc), String::new(alloc)));
    };
    let from = String::from_str(alloc, link.from.as_str())?;
    let name = String::from_str(alloc, link.name.as_str())?;
    Ok((from, name))
}

/// The first link that has the spec.
fn link_with<'a>(links: &'a [LinkRecord], spec: &str) -> Option<&'a LinkRecord>
    ensures { option_copied result ≡ find (has_spec spec.now) links.entry.now }
{
    links.iter().find(|link| has_spec(link, spec))
}

fn has_spec(link: &LinkRecord, spec: &str) -> bool
    ensures { result ≡ has_spec spec.now link.now }
{
    link.lines.iter().any(|line| match &line.spec {
        Some(other) => other.as_str() == spec,
        None => false,
    })
}

/// The choice that Cargo's words mean for a record. Each `--features` gives words that commas or
/// blanks part.
pub fn choice_file(alloc: Global, record: &[u8], asked: FeatureWords<'_>) -> Result<String, Refusal>
    ensures made { IfOk result (λ text. IsChoiceFile «record».now asked.entry (string_bytes text)) }
    ensures refused { IfErr result (RefusesChoice «record».now asked.entry) }
{
    let record = read_record(alloc, record)?;
    let text = choice_text_of(alloc, &record, asked);
    drop(record);
    text
}

/// The same for a record that was read.
fn choice_text_of(
    alloc: Global,
    record: &WorkspaceRecord,
    asked: FeatureWords<'_>,
) -> Result<String, Refusal>
    ensures made { IfOk result (λ text. IsChoiceOf «record».now asked.entry (string_bytes text)) }
    ensures refused { IfErr result (RefusesWords «record».now asked.entry) }
{
    let features = feature_words(alloc, asked.features)?;
    let words = FeatureWords {
        features: &features,
        no_default_features: asked.no_default_features,
        all_features: asked.all_features,
    };
    let choice = choice_of(alloc, record, words)?;
    Ok(choice_text(alloc, &choice)?)
}
