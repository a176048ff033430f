//! The details of a package, which are read in three parts.

ghost use Rattle.std.specs.Prelude.{◌≡◌};
ghost use Rattle.record_files.specs.Trees.{seen};
ghost use Rattle.record_files.specs.Outcomes.{Gives};
ghost use Rattle.record_files.specs.Details.{origin_of, description_of, settings_of, joined, details_of};

use crate::edition::DEFAULT_EDITION;
use crate::error::ReadError;
use crate::key::Key;
use crate::metadata::metadata_at;
use crate::object::{optional_text_at, optional_texts_at, text_or, texts_at};
use json::Value;
use std::alloc::Global;
use std::marker::Model;
use workspace_record::PackageInfo;

pub(crate) fn details_of(alloc: Global, value: &Value<'_>) -> Result<PackageInfo, ReadError>
    ensures { Gives (λ p. p) result (details_of (seen value.now)) }
{
    let origin = origin_of(alloc, value)?;
    let description = description_of(alloc, value)?;
    settings_of(alloc, value).map(|settings| joined(origin, description, settings))
}

fn joined(origin: Origin, description: Description, settings: Settings) -> PackageInfo
    ensures { result ≡ joined origin description settings }
{
    PackageInfo {
        source: origin.source,
        path: origin.path,
        manifest_path: origin.manifest_path,
        edition: origin.edition,
        authors: origin.authors,
        categories: origin.categories,
        keywords: origin.keywords,
        description: description.description,
        license: description.license,
        license_file: description.license_file,
        readme: description.readme,
        repository: description.repository,
        homepage: description.homepage,
        documentation: description.documentation,
        links: settings.links,
        default_run: settings.default_run,
        rust_version: settings.rust_version,
        publish: settings.publish,
        metadata: settings.metadata,
    }
}

/// Where a package is from, who wrote it and what it is about.
#[derive(Drop)]
struct Origin {
    source: Option<String>,
    path: Option<String>,
    manifest_path: String,
    edition: String,
    authors: Vec<String>,
    categories: Vec<String>,
    keywords: Vec<String>,
}

impl Model for Origin {
    ghost use Rattle.std.specs.Prelude.{map, option_map, string_bytes};
    ghost use Rattle.record_files.specs.Details.{Origin as OriginParts};

    ghost Value = { OriginParts };

    ghost view = { λ x. record {
      source = option_map string_bytes x.source;
      path = option_map string_bytes x.path;
      manifest_path = string_bytes x.manifest_path;
      edition = string_bytes x.edition;
      authors = map string_bytes x.authors.items;
      categories = map string_bytes x.categories.items;
      keywords = map string_bytes x.keywords.items;
    } };
}

#[tactic(auto, unfolding(crate::specs::Details::origin_of))]
fn origin_of(alloc: Global, value: &Value<'_>) -> Result<Origin, ReadError>
    ensures { Gives (λ x. x) result (origin_of (seen value.now)) }
{
    let source = optional_text_at(alloc, value, Key::Source)?;
    let path = optional_text_at(alloc, value, Key::Path)?;
    let manifest_path = text_or(alloc, value, Key::ManifestPath, "")?;
    let edition = text_or(alloc, value, Key::Edition, DEFAULT_EDITION)?;
    let authors = texts_at(alloc, value, Key::Authors)?;
    let categories = texts_at(alloc, value, Key::Categories)?;
    let keywords = texts_at(alloc, value, Key::Keywords)?;
    Ok(Origin {
        source,
        path,
        manifest_path,
        edition,
        authors,
        categories,
        keywords,
    })
}

/// What a package says of itself.
#[derive(Drop)]
struct Description {
    description: Option<String>,
    license: Option<String>,
    license_file: Option<String>,
    readme: Option<String>,
    repository: Option<String>,
    homepage: Option<String>,
    documentation: Option<String>,
}

impl Model for Description {
    ghost use Rattle.std.specs.Prelude.{option_map, string_bytes};
    ghost use Rattle.record_files.specs.Details.{Description as DescriptionParts};

    ghost Value = { DescriptionParts };

    ghost view = { λ x. record {
      description = option_map string_bytes x.description;
      license = option_map string_bytes x.license;
      license_file = option_map string_bytes x.license_file;
      readme = option_map string_bytes x.readme;
      repository = option_map string_bytes x.repository;
      homepage = option_map string_bytes x.homepage;
      documentation = option_map string_bytes x.documentation;
    } };
}

#[tactic(auto, unfolding(crate::specs::Details::description_of))]
fn description_of(alloc: Global, value: &Value<'_>) -> Result<Description, ReadError>
    ensures { Gives (λ x. x) result (description_of (seen value.now)) }
{
    let description = optional_text_at(alloc, value, Key::Description)?;
    let license = optional_text_at(alloc, value, Key::License)?;
    let license_file = optional_text_at(alloc, value, Key::LicenseFile)?;
    let readme = optional_text_at(alloc, value, Key::Readme)?;
    let repository = optional_text_at(alloc, value, Key::Repository)?;
    let homepage = optional_text_at(alloc, value, Key::Homepage)?;
    let documentation = optional_text_at(alloc, value, Key::Documentation)?;
    Ok(Description {
        description,
        license,
        license_file,
        readme,
        repository,
        homepage,
        documentation,
    })
}

/// How a package is built and published.
#[derive(Drop)]
struct Settings {
    links: Option<String>,
    default_run: Option<String>,
    rust_version: Option<String>,
    publish: Option<Vec<String>>,
    metadata: Option<String>,
}

impl Model for Settings {
    ghost use Rattle.std.specs.Prelude.{map, option_map, string_bytes};
    ghost use Rattle.record_files.specs.Details.{Settings as SettingsParts};

    ghost Value = { SettingsParts };

    ghost view = { λ x. record {
      links = option_map string_bytes x.links;
      default_run = option_map string_bytes x.default_run;
      rust_version = option_map string_bytes x.rust_version;
      publish = option_map (λ v. map string_bytes v.items) x.publish;
      metadata = option_map string_bytes x.metadata;
    } };
}

#[tactic(auto, unfolding(crate::specs::Details::settings_of))]
fn settings_of(alloc: Global, value: &Value<'_>) -> Result<Settings, ReadError>
    ensures { Gives (λ x. x) result (settings_of (seen value.now)) }
{
    let links = optional_text_at(alloc, value, Key::Links)?;
    let default_run = optional_text_at(alloc, value, Key::DefaultRun)?;
    let rust_version = optional_text_at(alloc, value, Key::RustVersion)?;
    let publish = optional_texts_at(alloc, value, Key::Publish)?;
    let metadata = metadata_at(alloc, value)?;
    Ok(Settings {
        links,
        default_run,
        rust_version,
        publish,
        metadata,
    })
}
