//! What a package's row says, with guppy's names.

ghost use Rattle.std.specs.Prelude.{◌≡◌, ◌↔◌, All, IfNone, IfSome, IsTrue, Ok, codes, is_some, map, option_map};
ghost use Rattle.std.specs.List.{list_any};
ghost use Rattle.std.specs.Str.{bytes_eq};
ghost use Rattle.list_facts.specs.Texts.{texts};
ghost use Rattle.semver.specs.Identifiers.{parts_of};
ghost use Rattle.semver.specs.Parse.{version_parts};
ghost use Rattle.guppy_package_parts.specs.BuildTargetViews.{id_view, target_view};
ghost use Rattle.guppy_package_parts.specs.PublishView.{publish_view};
ghost use Rattle.guppy_package_parts.specs.Sources.{source_of};
ghost use Rattle.guppy_package_parts.specs.SourceViews.{source_view};
ghost use Rattle.guppy_package_table.specs.Targets.{HasId, IsFirstWith, is_build_script, is_proc_macro};

use crate::build_targets::BuildTargets;
use crate::named_features::NamedFeatures;
use guppy_package_parts::{
    BuildTarget, BuildTargetId, PackagePublish, PackageRow, PackageSource, TargetKind, TargetRow,
};
use semver::Version;

/// What the row of one package says. Each text and list is lent from the row, where absent keys are
/// None.
#[derive(Clone, Copy, Debug)]
pub struct PackageDetails<'g> {
    row: &'g PackageRow,
    version: &'g Version,
    member_path: Option<&'g str>,
    ghost read: { version_parts row.now.version ≡ Ok (parts_of version.now) },
}

impl<'g> PackageDetails<'g> {
    ghost use Rattle.guppy_package_table.specs.PackageDetailsViews.{member_path_of, names_left, row_of, targets_left};

    /// The details of a row whose version was read, and whose package is a member of the workspace
    /// where it has a path there.
    pub(crate) fn of(
        row: &'g PackageRow,
        version: &'g Version,
        member_path: Option<&'g str>,
    ) -> PackageDetails<'g>
        requires { version_parts row.now.version ≡ Ok (parts_of version.now) }
        ensures row { row_of result ≡ row.entry.now }
        ensures path { member_path_of result ≡ option_map (λ p. p.now) member_path.entry }
    {
        PackageDetails {
            row,
            version,
            member_path,
        }
    }

    /// The row itself.
    pub fn row(&self) -> &'g PackageRow
        ensures { result.now ≡ row_of self.now }
    {
        self.row
    }

    /// The package's name.
    pub fn name(&self) -> &'g str
        ensures { result.now ≡ (row_of self.now).name }
    {
        let row = self.row;
        row.name.as_str()
    }

    /// What `semver` reads in the row's version.
    pub fn version(&self) -> &'g Version
        ensures { version_parts (row_of self.now).version ≡ Ok (parts_of result.now) }
    {
        self.version
    }

    /// The authors, in the order of the manifest.
    pub fn authors(&self) -> &'g [String]
        ensures { texts result.now ≡ (row_of self.now).info.authors }
    {
        let row = self.row;
        row.info.authors.as_slice()
    }

    /// What the manifest says of the package.
    pub fn description(&self) -> Option<&'g str>
        ensures { option_map (λ t. t.now) result ≡ (row_of self.now).info.description }
    {
        let row = self.row;
        row.info.description.as_deref()
    }

    /// The license, as an SPDX expression.
    pub fn license(&self) -> Option<&'g str>
        ensures { option_map (λ t. t.now) result ≡ (row_of self.now).info.license }
    {
        let row = self.row;
        row.info.license.as_deref()
    }

    /// The path of a license's text, told from the package's folder.
    pub fn license_file(&self) -> Option<&'g str>
        ensures { option_map (λ t. t.now) result ≡ (row_of self.now).info.license_file }
    {
        let row = self.row;
        row.info.license_file.as_deref()
    }

    /// A member's source is the workspace, with its path there.
    pub fn source(&self) -> PackageSource<'g>
        ensures { source_view result ≡ source_of (member_path_of self.now)
            (row_of self.now).info.source (row_of self.now).info.path }
    {
        PackageSource::of(self.row, self.member_path)
    }

    /// Whether the package is a member of the workspace.
    pub fn in_workspace(&self) -> bool
        ensures { result ≡ is_some (member_path_of self.now) }
    {
        self.member_path.is_some()
    }

    /// The path of the package's `Cargo.toml`.
    pub fn manifest_path(&self) -> &'g str
        ensures { result.now ≡ (row_of self.now).info.manifest_path }
    {
        let row = self.row;
        row.info.manifest_path.as_str()
    }

    /// The categories, in the order of the manifest.
    pub fn categories(&self) -> &'g [String]
        ensures { texts result.now ≡ (row_of self.now).info.categories }
    {
        let row = self.row;
        row.info.categories.as_slice()
    }

    /// The keywords, in the order of the manifest.
    pub fn keywords(&self) -> &'g [String]
        ensures { texts result.now ≡ (row_of self.now).info.keywords }
    {
        let row = self.row;
        row.info.keywords.as_slice()
    }

    /// The path of the README, told from the package's folder.
    pub fn readme(&self) -> Option<&'g str>
        ensures { option_map (λ t. t.now) result ≡ (row_of self.now).info.readme }
    {
        let row = self.row;
        row.info.readme.as_deref()
    }

    /// The URL of the repository.
    pub fn repository(&self) -> Option<&'g str>
        ensures { option_map (λ t. t.now) result ≡ (row_of self.now).info.repository }
    {
        let row = self.row;
        row.info.repository.as_deref()
    }

    /// The URL of the homepage.
    pub fn homepage(&self) -> Option<&'g str>
        ensures { option_map (λ t. t.now) result ≡ (row_of self.now).info.homepage }
    {
        let row = self.row;
        row.info.homepage.as_deref()
    }

    /// The URL of the documentation.
    pub fn documentation(&self) -> Option<&'g str>
        ensures { option_map (λ t. t.now) result ≡ (row_of self.now).info.documentation }
    {
        let row = self.row;
        row.info.documentation.as_deref()
    }

    /// The edition of Rust that the package is in.
    pub fn edition(&self) -> &'g str
        ensures { result.now ≡ (row_of self.now).info.edition }
    {
        let row = self.row;
        row.info.edition.as_str()
    }

    /// The JSON text of the manifest's own metadata.
    pub fn metadata_table(&self) -> Option<&'g str>
        ensures { option_map (λ t. t.now) result ≡ (row_of self.now).info.metadata }
    {
        let row = self.row;
        row.info.metadata.as_deref()
    }

    /// The native library that the package links to.
    pub fn links(&self) -> Option<&'g str>
        ensures { option_map (λ t. t.now) result ≡ (row_of self.now).info.links }
    {
        let row = self.row;
        row.info.links.as_deref()
    }

    /// The registries that the package may be published to.
    pub fn publish(&self) -> PackagePublish<'g>
        ensures { publish_view result ≡ (row_of self.now).info.publish }
    {
        PackagePublish::of(self.row)
    }

    /// The binary that `cargo run` starts where none is named.
    pub fn default_run(&self) -> Option<&'g str>
        ensures { option_map (λ t. t.now) result ≡ (row_of self.now).info.default_run }
    {
        let row = self.row;
        row.info.default_run.as_deref()
    }

    /// The oldest version of Rust that the package says it builds with.
    pub fn rust_version(&self) -> Option<&'g str>
        ensures { option_map (λ t. t.now) result ≡ (row_of self.now).info.rust_version }
    {
        let row = self.row;
        row.info.rust_version.as_deref()
    }

    /// The targets, in the row's order.
    pub fn build_targets(&self) -> BuildTargets<'g>
        ensures { targets_left result ≡ (row_of self.now).targets }
    {
        let row = self.row;
        BuildTargets::of(row.targets.as_slice())
    }

    /// The first target with the id; the rules of a record leave one at most.
    pub fn build_target(&self, id: &BuildTargetId<'_>) -> Option<BuildTarget<'g>>
        ensures found { IfSome result (λ t. IsFirstWith (id_view id.now) (row_of self.now).targets
            (target_view t)) }
        ensures none { IfNone result (All (λ t. ¬ HasId (id_view id.now) t)
            (row_of self.now).targets) }
    {
        let row = self.row;
        let target = target_with(&row.targets, *id)?;
        Some(BuildTarget::of(target))
    }

    /// Whether a target is a procedural macro.
    pub fn is_proc_macro(&self) -> bool
        ensures { result ≡ list_any is_proc_macro (row_of self.now).targets }
    {
        let row = self.row;
        row.targets
            .iter()
            .any(|target| target.kind == TargetKind::ProcMacro)
    }

    /// Whether a target is a build script.
    pub fn has_build_script(&self) -> bool
        ensures { result ≡ list_any is_build_script (row_of self.now).targets }
    {
        let row = self.row;
        row.targets
            .iter()
            .any(|target| target.kind == TargetKind::BuildScript)
    }

    /// Whether a feature is called `default`.
    pub fn has_default_feature(&self) -> bool
        ensures { result ≡ list_any (λ f. bytes_eq f.name (codes "default"))
            (row_of self.now).features }
    {
        let row = self.row;
        row.features
            .iter()
            .any(|feature| feature.name.as_str() == "default")
    }

    /// The names of the features, in the row's order.
    pub fn named_features(&self) -> NamedFeatures<'g>
        ensures { names_left result ≡ map (λ f. f.name) (row_of self.now).features }
    {
        let row = self.row;
        NamedFeatures::of(row.features.as_slice())
    }
}

fn target_with<'g>(targets: &'g [TargetRow], id: BuildTargetId<'_>) -> Option<&'g TargetRow>
    ensures found { IfSome result (λ t. IsFirstWith (id_view id.entry) targets.entry.now t.now) }
    ensures none { IfNone result (All (λ t. ¬ HasId (id_view id.entry) t) targets.entry.now) }
{
    for target in targets {
        if has_id(target, id) {
            return Some(target);
        }
    }
    None
}

fn has_id(target: &TargetRow, id: BuildTargetId<'_>) -> bool
    ensures { IsTrue result ↔ HasId (id_view id.entry) target.now }
{
    BuildTarget::of(target).id() == id
}
