//! The sections of a manifest that declare dependencies.

ghost use Rattle.std.specs.Prelude.{◌≡◌};
ghost use Rattle.guppy_package_parts.specs.DependencyKinds.{kind_text, line_kind_of};

use std::fmt;
use workspace_record::LineKind;

/// Which section of a manifest declares a dependency.
#[derive(Clone, Copy, Debug, PartialEq, Eq, PartialOrd, Ord, Hash)]
pub enum DependencyKind {
    Normal,
    Development,
    Build,
}

impl DependencyKind {
    /// All the kinds.
    pub const VALUES: &'static [Self; 3] = &[
        DependencyKind::Normal,
        DependencyKind::Development,
        DependencyKind::Build,
    ];

    /// The kind's name.
    pub fn to_str(self) -> &'static str
        ensures { result.now ≡ kind_text self }
    {
        match self {
            DependencyKind::Normal => "normal",
            DependencyKind::Development => "dev",
            DependencyKind::Build => "build",
        }
    }

    /// The kind of the lines that declare such dependencies.
    pub fn line_kind(self) -> LineKind
        ensures { result ≡ line_kind_of self }
    {
        match self {
            DependencyKind::Normal => LineKind::Normal,
            DependencyKind::Development => LineKind::Dev,
            DependencyKind::Build => LineKind::Build,
        }
    }
}

impl fmt::Display for DependencyKind {
    ghost use Rattle.std.specs.Prelude.{Some};
    ghost use Rattle.guppy_package_parts.specs.DependencyKinds.{kind_text};

    ghost output = { λ kind. Some (kind_text kind) };

    fn fmt<W: fmt::Write>(&self, f: &mut fmt::Formatter<W>) -> fmt::Result {
        f.write_str(self.to_str())
    }
}
