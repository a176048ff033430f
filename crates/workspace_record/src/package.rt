//! Packages, their features and details.

ghost use Rattle.std.specs.Prelude.{◌≡◌, IfOk, OnOk};
ghost use Rattle.workspace_record.specs.Records.{no_details};

use crate::target::TargetRecord;
use crate::texts::{copy_each, copy_text, same_text, same_texts};
use list_facts::copy_texts;
use std::alloc::{AllocError, Global};
use std::marker::Model;

/// A feature that a manifest names, and what it enables.
#[derive(Debug, Drop)]
pub struct FeatureRecord {
    pub name: String,
    pub enables: Vec<String>,
}

impl Model for FeatureRecord {
    ghost use Rattle.std.specs.Prelude.{map, string_bytes};
    ghost use Rattle.workspace_record.specs.Records.{FeatureEntry};

    ghost Value = { FeatureEntry };

    ghost view = { λ f. record { name = string_bytes f.name; enables = map string_bytes f.enables.items } };
}

impl PartialEq for FeatureRecord {
    ghost use Rattle.workspace_record.specs.RecordEquality.{feature_entry_eq, feature_entries_decide};
    ghost use Rattle.workspace_record.specs.Equality.{equivalence};
    ghost use Rattle.std.specs.Cmp.{partial_equiv_from_equiv};

    ghost eq = { feature_entry_eq };

    ghost laws = { partial_equiv_from_equiv (equivalence feature_entries_decide) };

    fn eq(&self, other: &FeatureRecord) -> bool {
        self.name == other.name && same_texts(&self.enables, &other.enables)
    }
}

impl Eq for FeatureRecord {
    ghost use Rattle.workspace_record.specs.RecordEquality.{feature_entries_decide};
    ghost use Rattle.workspace_record.specs.Equality.{equivalence};

    ghost laws = { equivalence feature_entries_decide };
}

impl FeatureRecord {
    /// An equal value in memory of its own.
    pub fn copy(&self, alloc: Global) -> Result<FeatureRecord, AllocError>
        ensures { IfOk result (λ f. f ≡ self.now) }
    {
        let name = String::from_str(alloc, self.name.as_str())?;
        let enables = copy_texts(alloc, &self.enables)?;
        Ok(FeatureRecord { name, enables })
    }
}

/// A package's remaining metadata, as `cargo metadata` gives it. A text that a manifest leaves out
/// is `None`. `publish` lists the registries that the package may be published to, and `None` means
/// any; `metadata` is compact JSON.
#[derive(Debug, Drop)]
pub struct PackageInfo {
    pub source: Option<String>,
    pub path: Option<String>,
    pub manifest_path: String,
    pub edition: String,
    pub authors: Vec<String>,
    pub description: Option<String>,
    pub license: Option<String>,
    pub license_file: Option<String>,
    pub categories: Vec<String>,
    pub keywords: Vec<String>,
    pub readme: Option<String>,
    pub repository: Option<String>,
    pub homepage: Option<String>,
    pub documentation: Option<String>,
    pub links: Option<String>,
    pub publish: Option<Vec<String>>,
    pub default_run: Option<String>,
    pub rust_version: Option<String>,
    pub metadata: Option<String>,
}

impl Model for PackageInfo {
    ghost use Rattle.std.specs.Prelude.{map, option_map, string_bytes};
    ghost use Rattle.workspace_record.specs.Records.{PackageDetails};

    ghost Value = { PackageDetails };

    ghost view = { λ p. record {
      source = option_map string_bytes p.source;
      path = option_map string_bytes p.path;
      manifest_path = string_bytes p.manifest_path;
      edition = string_bytes p.edition;
      authors = map string_bytes p.authors.items;
      description = option_map string_bytes p.description;
      license = option_map string_bytes p.license;
      license_file = option_map string_bytes p.license_file;
      categories = map string_bytes p.categories.items;
      keywords = map string_bytes p.keywords.items;
      readme = option_map string_bytes p.readme;
      repository = option_map string_bytes p.repository;
      homepage = option_map string_bytes p.homepage;
      documentation = option_map string_bytes p.documentation;
      links = option_map string_bytes p.links;
      publish = option_map (λ v. map string_bytes v.items) p.publish;
      default_run = option_map string_bytes p.default_run;
      rust_version = option_map string_bytes p.rust_version;
      metadata = option_map string_bytes p.metadata;
    } };
}

impl PartialEq for PackageInfo {
    ghost use Rattle.workspace_record.specs.RecordEquality.{package_details_eq, package_details_decide};
    ghost use Rattle.workspace_record.specs.Equality.{equivalence};
    ghost use Rattle.std.specs.Cmp.{partial_equiv_from_equiv};

    ghost eq = { package_details_eq };

    ghost laws = { partial_equiv_from_equiv (equivalence package_details_decide) };

    fn eq(&self, other: &PackageInfo) -> bool {
        same_text(&self.source, &other.source)
            && same_text(&self.path, &other.path)
            && self.manifest_path == other.manifest_path
            && self.edition == other.edition
            && same_text(&self.rust_version, &other.rust_version)
            && match (&self.publish, &other.publish) {
                (None, None) => true,
                (Some(a), Some(b)) => same_texts(a, b),
                _ => false,
            }
            && same_texts(&self.authors, &other.authors)
            && same_text(&self.description, &other.description)
            && same_text(&self.license, &other.license)
            && same_text(&self.license_file, &other.license_file)
            && same_texts(&self.categories, &other.categories)
            && same_texts(&self.keywords, &other.keywords)
            && same_text(&self.readme, &other.readme)
            && same_text(&self.repository, &other.repository)
            && same_text(&self.homepage, &other.homepage)
            && same_text(&self.documentation, &other.documentation)
            && same_text(&self.links, &other.links)
            && same_text(&self.default_run, &other.default_run)
            && same_text(&self.metadata, &other.metadata)
    }
}

impl Eq for PackageInfo {
    ghost use Rattle.workspace_record.specs.RecordEquality.{package_details_decide};
    ghost use Rattle.workspace_record.specs.Equality.{equivalence};

    ghost laws = { equivalence package_details_decide };
}

impl PackageInfo {
    /// Metadata with nothing given.
    pub fn empty(alloc: Global) -> PackageInfo
        ensures { result ≡ no_details }
    {
        PackageInfo {
            source: None,
            path: None,
            manifest_path: String::new(alloc),
            edition: String::new(alloc),
            authors: Vec::new(alloc),
            description: None,
            license: None,
            license_file: None,
            categories: Vec::new(alloc),
            keywords: Vec::new(alloc),
            readme: None,
            repository: None,
            homepage: None,
            documentation: None,
            links: None,
            publish: None,
            default_run: None,
            rust_version: None,
            metadata: None,
        }
    }

    /// An equal value in memory of its own.
    pub fn copy(&self, alloc: Global) -> Result<PackageInfo, AllocError>
        ensures { IfOk result (λ p. p ≡ self.now) }
    {
        let mut info = PackageInfo::empty(alloc);
        let copied = copy_info(alloc, self, &mut info);
        copied.and(Ok(info))
    }
}

/// Puts a copy of all that is given in place of what stands there.
fn copy_info(alloc: Global, from: &PackageInfo, to: &mut PackageInfo) -> Result<(), AllocError>
    ensures { OnOk result (to.new ≡ from.now) }
{
    to.source = copy_text(alloc, &from.source)?;
    to.path = copy_text(alloc, &from.path)?;
    to.manifest_path = String::from_str(alloc, from.manifest_path.as_str())?;
    to.edition = String::from_str(alloc, from.edition.as_str())?;
    to.authors = copy_texts(alloc, &from.authors)?;
    to.description = copy_text(alloc, &from.description)?;
    to.license = copy_text(alloc, &from.license)?;
    to.license_file = copy_text(alloc, &from.license_file)?;
    to.categories = copy_texts(alloc, &from.categories)?;
    to.keywords = copy_texts(alloc, &from.keywords)?;
    to.readme = copy_text(alloc, &from.readme)?;
    to.repository = copy_text(alloc, &from.repository)?;
    to.homepage = copy_text(alloc, &from.homepage)?;
    to.documentation = copy_text(alloc, &from.documentation)?;
    to.links = copy_text(alloc, &from.links)?;
    to.publish = match &from.publish {
        None => None,
        Some(texts) => Some(copy_texts(alloc, texts)?),
    };
    to.default_run = copy_text(alloc, &from.default_run)?;
    to.rust_version = copy_text(alloc, &from.rust_version)?;
    to.metadata = copy_text(alloc, &from.metadata)?;
    Ok(())
}

/// A package: its id, the features of its manifest, its optional dependencies by name, and its
/// targets.
#[derive(Debug, Drop)]
pub struct PackageRecord {
    pub id: String,
    pub name: String,
    pub version: String,
    pub features: Vec<FeatureRecord>,
    pub optional: Vec<String>,
    pub targets: Vec<TargetRecord>,
    pub info: PackageInfo,
}

impl Model for PackageRecord {
    ghost use Rattle.std.specs.Prelude.{map, string_bytes};
    ghost use Rattle.workspace_record.specs.Records.{Package};

    ghost Value = { Package };

    ghost view = { λ p. record {
      id = string_bytes p.id;
      name = string_bytes p.name;
      version = string_bytes p.version;
      features = p.features.items;
      optional = map string_bytes p.optional.items;
      targets = p.targets.items;
      info = p.info;
    } };
}

impl PartialEq for PackageRecord {
    ghost use Rattle.workspace_record.specs.RecordEquality.{package_eq, packages_decide};
    ghost use Rattle.workspace_record.specs.Equality.{equivalence};
    ghost use Rattle.std.specs.Cmp.{partial_equiv_from_equiv};

    ghost eq = { package_eq };

    ghost laws = { partial_equiv_from_equiv (equivalence packages_decide) };

    fn eq(&self, other: &PackageRecord) -> bool {
        self.id == other.id
            && self.name == other.name
            && self.version == other.version
            && self.features == other.features
            && same_texts(&self.optional, &other.optional)
            && self.targets == other.targets
            && self.info == other.info
    }
}

impl Eq for PackageRecord {
    ghost use Rattle.workspace_record.specs.RecordEquality.{packages_decide};
    ghost use Rattle.workspace_record.specs.Equality.{equivalence};

    ghost laws = { equivalence packages_decide };
}

impl PackageRecord {
    /// An equal value in memory of its own.
    pub fn copy(&self, alloc: Global) -> Result<PackageRecord, AllocError>
        ensures { IfOk result (λ p. p ≡ self.now) }
    {
        Ok(PackageRecord {
            id: String::from_str(alloc, self.id.as_str())?,
            name: String::from_str(alloc, self.name.as_str())?,
            version: String::from_str(alloc, self.version.as_str())?,
            features: copy_each(alloc, &self.features, |feature| feature.copy(alloc))?,
            optional: copy_texts(alloc, &self.optional)?,
            targets: copy_each(alloc, &self.targets, |target| target.copy(alloc))?,
            info: self.info.copy(alloc)?,
        })
    }
}

/// Equal rows in memory of their own.
pub fn copy_packages(
    alloc: Global,
    packages: &[PackageRecord],
) -> Result<Vec<PackageRecord>, AllocError>
    ensures { IfOk result (λ v. v.items ≡ packages.now) }
{
    copy_each(alloc, packages, |row| row.copy(alloc))
}
