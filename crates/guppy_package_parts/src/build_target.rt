//! The targets of a package.

ghost use Rattle.std.specs.Prelude.{◌≡◌, option_map};
ghost use Rattle.list_facts.specs.Texts.{texts};
ghost use Rattle.guppy_package_parts.specs.BuildTargets.{built_as, id_of, id_name};
ghost use Rattle.workspace_record.specs.declared.kinds.TargetKind.TheVariants.{Example};
ghost use Rattle.guppy_package_parts.specs.BuildTargetViews.{id_view, kind_view, target_view};

use crate::texts::contains_other_text;
use workspace_record::{TargetKind, TargetRecord};

/// What a target is called within its package.
#[derive(Clone, Copy, Debug, PartialEq, Eq, PartialOrd, Ord, Hash)]
pub enum BuildTargetId<'g> {
    /// The library or the procedural macro, of which there is at most one.
    Library,
    /// The build script, of which there is at most one.
    BuildScript,
    Binary(&'g str),
    Example(&'g str),
    Test(&'g str),
    Benchmark(&'g str),
}

impl<'g> BuildTargetId<'g> {
    /// The name, where several targets of this sort may stand in a package.
    pub fn name(&self) -> Option<&'g str>
        ensures { option_map (λ n. n.now) result ≡ id_name (id_view self.now) }
    {
        match *self {
            BuildTargetId::Library | BuildTargetId::BuildScript => None,
            BuildTargetId::Binary(name)
            | BuildTargetId::Example(name)
            | BuildTargetId::Test(name)
            | BuildTargetId::Benchmark(name) => Some(name),
        }
    }
}

/// What a target is compiled to.
#[derive(Clone, Copy, Debug, PartialEq, Eq)]
pub enum BuildTargetKind<'g> {
    /// A library, or an example that is one, of these crate types.
    LibraryOrExample(&'g [String]),
    ProcMacro,
    Binary,
}

/// Something that Cargo builds from a package.
#[derive(Clone, Copy, Debug)]
pub struct BuildTarget<'g> {
    row: &'g TargetRecord,
}

impl<'g> BuildTarget<'g> {
    /// The target of a row.
    pub fn of(row: &'g TargetRecord) -> BuildTarget<'g>
        ensures { target_view result ≡ row.entry.now }
    {
        BuildTarget { row }
    }

    /// What the target is called within its package.
    pub fn id(&self) -> BuildTargetId<'g>
        ensures { id_view result ≡ id_of (target_view self.now).kind (target_view self.now).name }
    {
        let row = self.row;
        let name = row.name.as_str();
        match row.kind {
            TargetKind::Lib | TargetKind::ProcMacro => BuildTargetId::Library,
            TargetKind::BuildScript => BuildTargetId::BuildScript,
            TargetKind::Bin => BuildTargetId::Binary(name),
            TargetKind::Example => BuildTargetId::Example(name),
            TargetKind::Test => BuildTargetId::Test(name),
            TargetKind::Bench => BuildTargetId::Benchmark(name),
        }
    }

    /// The target's name.
    pub fn name(&self) -> &'g str
        ensures { result.now ≡ (target_view self.now).name }
    {
        let row = self.row;
        row.name.as_str()
    }

    /// What Cargo builds of the target.
    pub fn kind(&self) -> BuildTargetKind<'g>
        ensures { kind_view result ≡ built_as (target_view self.now).kind
            (target_view self.now).info.crate_types }
    {
        let row = self.row;
        let crate_types = row.info.crate_types.as_slice();
        match row.kind {
            TargetKind::Lib => BuildTargetKind::LibraryOrExample(crate_types),
            TargetKind::ProcMacro => BuildTargetKind::ProcMacro,
            TargetKind::Example => example_kind(crate_types),
            TargetKind::Test | TargetKind::Bench | TargetKind::Bin | TargetKind::BuildScript => {
                BuildTargetKind::Binary
            }
        }
    }

    /// The features that the target is built with only, in the order of the manifest.
    pub fn required_features(&self) -> &'g [String]
        ensures { texts result.now ≡ (target_view self.now).required_features }
    {
        let row = self.row;
        row.required_features.as_slice()
    }

    /// The path of the target's root file.
    pub fn path(&self) -> &'g str
        ensures { result.now ≡ (target_view self.now).info.path }
    {
        let row = self.row;
        row.info.path.as_str()
    }

    /// The edition of Rust that the target is in.
    pub fn edition(&self) -> &'g str
        ensures { result.now ≡ (target_view self.now).info.edition }
    {
        let row = self.row;
        row.info.edition.as_str()
    }

    /// Whether `cargo doc` documents the target.
    pub fn doc_by_default(&self) -> bool
        ensures { result ≡ (target_view self.now).info.doc }
    {
        let row = self.row;
        row.info.doc
    }

    /// Whether `cargo test` runs the examples in its documentation.
    pub fn doctest_by_default(&self) -> bool
        ensures { result ≡ (target_view self.now).info.doctest }
    {
        let row = self.row;
        row.info.doctest
    }

    /// Whether `cargo test` builds its tests.
    pub fn test_by_default(&self) -> bool
        ensures { result ≡ (target_view self.now).tested }
    {
        let row = self.row;
        row.tested
    }
}

// An example is a program where each of its crate types is `bin`, also where it has none or lists `bin` twice;
// one other crate type makes it a library.
// An example is a program, unless it has another crate type.
fn example_kind<'g>(crate_types: &'g [String]) -> BuildTargetKind<'g>
    ensures { kind_view result ≡ built_as Example (texts crate_types.entry.now) }
{
    if contains_other_text(crate_types, "bin") {
        BuildTargetKind::LibraryOrExample(crate_types)
    } else {
        BuildTargetKind::Binary
    }
}
