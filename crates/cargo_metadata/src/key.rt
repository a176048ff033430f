//! The keys that are read.

ghost use Rattle.std.specs.Prelude.{◌≡◌};
ghost use Rattle.cargo_metadata.specs.Keys.{key_of};

use std::fmt;

/// A key of what `cargo metadata` prints. `File` stands for the file itself.
#[derive(Clone, Copy, Debug, Drop, PartialEq, Eq)]
pub enum Key {
    File,
    Packages,
    Resolve,
    Nodes,
    Deps,
    Pkg,
    DepKinds,
    WorkspaceMembers,
    WorkspaceDefaultMembers,
    WorkspaceRoot,
    TargetDirectory,
    BuildDirectory,
    Id,
    Name,
    Version,
    Dependencies,
    Requirement,
    Kind,
    Rename,
    Optional,
    UsesDefaultFeatures,
    Features,
    Target,
    Registry,
    Path,
    Source,
    ManifestPath,
    Edition,
    Authors,
    Categories,
    Keywords,
    Description,
    License,
    LicenseFile,
    Readme,
    Repository,
    Homepage,
    Documentation,
    Links,
    DefaultRun,
    RustVersion,
    Publish,
    Targets,
    RequiredFeatures,
    Test,
    SourcePath,
    CrateTypes,
    Doc,
    Doctest,
}

impl Key {
    /// The key as Cargo writes it.
    pub fn as_str(self) -> &'static str
        ensures { result.now ≡ key_of self }
    {
        match self {
            Key::File => "file",
            Key::Packages => "packages",
            Key::Resolve => "resolve",
            Key::Nodes => "nodes",
            Key::Deps => "deps",
            Key::Pkg => "pkg",
            Key::DepKinds => "dep_kinds",
            Key::WorkspaceMembers => "workspace_members",
            Key::WorkspaceDefaultMembers => "workspace_default_members",
            Key::WorkspaceRoot => "workspace_root",
            Key::TargetDirectory => "target_directory",
            Key::BuildDirectory => "build_directory",
            Key::Id => "id",
            Key::Name => "name",
            Key::Version => "version",
            Key::Dependencies => "dependencies",
            Key::Requirement => "req",
            Key::Kind => "kind",
            Key::Rename => "rename",
            Key::Optional => "optional",
            Key::UsesDefaultFeatures => "uses_default_features",
            Key::Features => "features",
            Key::Target => "target",
            Key::Registry => "registry",
            Key::Path => "path",
            Key::Source => "source",
            Key::ManifestPath => "manifest_path",
            Key::Edition => "edition",
            Key::Authors => "authors",
            Key::Categories => "categories",
            Key::Keywords => "keywords",
            Key::Description => "description",
            Key::License => "license",
            Key::LicenseFile => "license_file",
            Key::Readme => "readme",
            Key::Repository => "repository",
            Key::Homepage => "homepage",
            Key::Documentation => "documentation",
            Key::Links => "links",
            Key::DefaultRun => "default_run",
            Key::RustVersion => "rust_version",
            Key::Publish => "publish",
            Key::Targets => "targets",
            Key::RequiredFeatures => "required-features",
            Key::Test => "test",
            Key::SourcePath => "src_path",
            Key::CrateTypes => "crate_types",
            Key::Doc => "doc",
            Key::Doctest => "doctest",
        }
    }
}

impl fmt::Display for Key {
    fn fmt<W: fmt::Write>(&self, f: &mut fmt::Formatter<W>) -> fmt::Result {
        f.write_str(self.as_str())
    }
}
