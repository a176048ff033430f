//! Where a package comes from.

ghost use Rattle.std.specs.Prelude.{◌≡◌, IfSome, option_map};
ghost use Rattle.guppy_package_parts.specs.Sources.{is_workspace, is_path, is_external, is_crates_io, is_local, workspace_path_of, local_path_of, external_text_of, external_text, parsed_source, source_of, source_text};
ghost use Rattle.guppy_package_parts.specs.SourceViews.{external_view, source_view};

use crate::external_source::ExternalSource;
use std::fmt;
use workspace_record::PackageRecord;

/// Where a package comes from.
#[derive(Clone, Copy, Debug, PartialEq, Eq)]
pub enum PackageSource<'g> {
    /// The workspace, in the folder at this path.
    Workspace(&'g str),
    /// A folder outside the workspace, at this path.
    Path(&'g str),
    /// A registry or a repository, as Cargo writes it.
    External(&'g str),
}

impl<'g> PackageSource<'g> {
    /// The source of packages from crates.io.
    pub const CRATES_IO_REGISTRY: &'static str =
        "registry+https://github.com/rust-lang/crates.io-index";

    // The member's path is handed over, since a package's row does not say whether it is a member.
    /// The source of a row's package, which is a member of the workspace where it has a path there.
    pub fn of(row: &'g PackageRecord, member_path: Option<&'g str>) -> PackageSource<'g>
        ensures { source_view result ≡ source_of (option_map (λ p. p.now) member_path.entry)
            row.entry.now.info.source row.entry.now.info.path }
    {
        match (member_path, &row.info.source, &row.info.path) {
            (Some(path), _, _) => PackageSource::Workspace(path),
            (None, Some(text), _) => PackageSource::External(text.as_str()),
            (None, None, Some(path)) => PackageSource::Path(path.as_str()),
            (None, None, None) => PackageSource::Path(""),
        }
    }

    /// Whether the package is a member of the workspace.
    pub fn is_workspace(&self) -> bool
        ensures { result ≡ is_workspace (source_view self.now) }
    {
        matches!(self, PackageSource::Workspace(_))
    }

    /// Whether the package lies in a folder and is no member of the workspace.
    pub fn is_path(&self) -> bool
        ensures { result ≡ is_path (source_view self.now) }
    {
        matches!(self, PackageSource::Path(_))
    }

    /// Whether the package comes from outside: a registry, a repository or elsewhere.
    pub fn is_external(&self) -> bool
        ensures { result ≡ is_external (source_view self.now) }
    {
        matches!(self, PackageSource::External(_))
    }

    /// Whether the package comes from crates.io.
    pub fn is_crates_io(&self) -> bool
        ensures { result ≡ is_crates_io (source_view self.now) }
    {
        match self {
            PackageSource::External(text) => *text == Self::CRATES_IO_REGISTRY,
            _ => false,
        }
    }

    /// Whether the package lies in a folder, of the workspace or not.
    pub fn is_local(&self) -> bool
        ensures { result ≡ is_local (source_view self.now) }
    {
        !self.is_external()
    }

    /// A member's folder, told from the workspace's root.
    pub fn workspace_path(&self) -> Option<&'g str>
        ensures { option_map (λ p. p.now) result ≡ workspace_path_of (source_view self.now) }
    {
        match *self {
            PackageSource::Workspace(path) => Some(path),
            _ => None,
        }
    }

    /// The package's folder, of the workspace or not.
    pub fn local_path(&self) -> Option<&'g str>
        ensures { option_map (λ p. p.now) result ≡ local_path_of (source_view self.now) }
    {
        match *self {
            PackageSource::Workspace(path) | PackageSource::Path(path) => Some(path),
            PackageSource::External(_) => None,
        }
    }

    /// The text of an external source.
    pub fn external_source(&self) -> Option<&'g str>
        ensures { option_map (λ p. p.now) result ≡ external_text_of (source_view self.now) }
    {
        match *self {
            PackageSource::External(text) => Some(text),
            _ => None,
        }
    }

    /// Reads an external source.
    pub fn parse_external(&self) -> Option<ExternalSource<'g>>
        ensures read { option_map external_view result ≡ parsed_source (source_view self.now) }
        ensures printed { IfSome result (λ s. external_text (external_view s)
            ≡ source_text (source_view self.now)) }
    {
        match *self {
            PackageSource::External(text) => ExternalSource::new(text),
            _ => None,
        }
    }
}

impl fmt::Display for PackageSource<'_> {
    ghost use Rattle.std.specs.Prelude.{Some};
    ghost use Rattle.guppy_package_parts.specs.Sources.{source_text};
    ghost use Rattle.guppy_package_parts.specs.SourceViews.{source_view};

    ghost output = { λ source. Some (source_text (source_view source)) };

    fn fmt<W: fmt::Write>(&self, f: &mut fmt::Formatter<W>) -> fmt::Result {
        match self {
            PackageSource::Workspace(text)
            | PackageSource::Path(text)
            | PackageSource::External(text) => f.write_str(*text),
        }
    }
}
