//! Why a file is refused, with the remedy.

use crate::choice_fault::ChoiceFault;
use crate::settings::SettingsError;
use crate::spec_fault::SpecFault;
use cargo_metadata::MetadataError;
use cargo_record::RecordFault;
use record_files::ReadError;
use std::alloc::{AllocError, AllocFailed};
use std::fmt;

/// Why a file is refused.
#[derive(Drop)]
pub enum Refusal {
    Metadata(MetadataError),
    Record(RecordFault),
    Settings(SettingsError),
    /// A spec of the record cannot be read.
    Spec(SpecPlace),
    Choice(ChoiceFault),
    /// The file of a record cannot be read.
    File(ReadError),
    /// The list of nextest is not JSON.
    NoJson,
    /// The list of nextest has no suites.
    NoSuites,
    /// There is no list of the tests of a binary.
    NoList(String),
    /// The file of a binary's list cannot be read, or is not UTF-8.
    UnreadList(String),
    /// A line of a binary's list, by its place, is not a test.
    StrayLine(String, usize),
    /// A binary's list has two tests of one name.
    Repeated(String, String),
    Memory,
}

impl fmt::Display for Refusal {
    fn fmt<W: fmt::Write>(&self, f: &mut fmt::Formatter<W>) -> fmt::Result {
        match self {
            Refusal::Metadata(error) => write_metadata_fault(f, error),
            Refusal::Record(fault) => write!(f, "{fault}"),
            Refusal::Settings(error) => write!(f, "{error}: run `rustc --print cfg`"),
            Refusal::Spec(place) => write!(f, "{place}"),
            Refusal::Choice(fault) => write!(f, "{fault}"),
            Refusal::File(error) => write!(f, "{error}: run `cargo_workspace record`"),
            Refusal::NoJson => f.write_str(
                "not JSON: run `cargo nextest list --message-format json`",
            ),
            Refusal::NoSuites => f.write_str(
                "`rust-suites` is missing: run `cargo nextest list --message-format json`",
            ),
            Refusal::Memory => f.write_str("out of memory"),
            _ => write_list_fault(f, self),
        }
    }
}

fn write_metadata_fault<W: fmt::Write>(
    f: &mut fmt::Formatter<W>,
    error: &MetadataError,
) -> fmt::Result {
    match error {
        MetadataError::UnknownKind(..) => write!(
            f,
            "package {error}: use a kind that docs/FROM_CARGO.md lists",
        ),
        _ => write!(
            f,
            "{error}: run `cargo metadata --format-version 1 --all-features`",
        ),
    }
}

fn write_list_fault<W: fmt::Write>(f: &mut fmt::Formatter<W>, refusal: &Refusal) -> fmt::Result {
    match refusal {
        Refusal::NoList(id) => write!(
            f,
            "binary {id} has no list: run it with `--list --format terse`, or pass --built",
        ),
        Refusal::UnreadList(id) => write!(
            f,
            "binary {id}: cannot read its list: run it with `--list --format terse`",
        ),
        Refusal::StrayLine(id, place) => write!(
            f,
            "binary {id}: line {} of its list is not a test: run it with `--list --format terse`",
            place.saturating_add(1),
        ),
        Refusal::Repeated(id, name) => write!(
            f,
            "binary {id}: test `{name}` is listed twice: rename one of the two",
        ),
        _ => Ok(()),
    }
}

/// A spec that cannot be read, and the dependency that has it.
#[derive(Drop)]
pub struct SpecPlace {
    pub owner: String,
    pub dependency: String,
    pub spec: String,
    pub fault: SpecFault,
}

impl fmt::Display for SpecPlace {
    fn fmt<W: fmt::Write>(&self, f: &mut fmt::Formatter<W>) -> fmt::Result {
        let (owner, dependency, spec) = (&self.owner, &self.dependency, &self.spec);
        write!(
            f,
            "package {owner}: dependency {dependency}: spec `{spec}`: "
        )?;
        write!(f, "{}: correct the spec in the manifest", self.fault)
    }
}

/// A file that is refused, by its name.
#[derive(Drop)]
pub struct RefusedFile<'a> {
    pub name: &'a str,
    pub refusal: Refusal,
}

/// The line that tells of it: the file, what is wrong, and what to do.
impl fmt::Display for RefusedFile<'_> {
    fn fmt<W: fmt::Write>(&self, f: &mut fmt::Formatter<W>) -> fmt::Result {
        write!(f, "{}: {}", self.name, self.refusal)
    }
}

impl From<MetadataError> for Refusal {
    ghost use Rattle.std.specs.Prelude.{◌≡◌};
    ghost use Rattle.cargo_files.specs.declared.refusal.Refusal.TheVariants.{Metadata};

    ghost from_gives = { λ e r. r ≡ Metadata e };

    fn from(error: MetadataError) -> Refusal {
        Refusal::Metadata(error)
    }
}

impl From<RecordFault> for Refusal {
    ghost use Rattle.std.specs.Prelude.{◌≡◌};
    ghost use Rattle.cargo_files.specs.declared.refusal.Refusal.TheVariants.{Record};

    ghost from_gives = { λ e r. r ≡ Record e };

    fn from(fault: RecordFault) -> Refusal {
        Refusal::Record(fault)
    }
}

impl From<SettingsError> for Refusal {
    ghost use Rattle.std.specs.Prelude.{◌≡◌};
    ghost use Rattle.cargo_files.specs.declared.refusal.Refusal.TheVariants.{Settings};

    ghost from_gives = { λ e r. r ≡ Settings e };

    fn from(error: SettingsError) -> Refusal {
        Refusal::Settings(error)
    }
}

impl From<ChoiceFault> for Refusal {
    ghost use Rattle.std.specs.Prelude.{◌≡◌};
    ghost use Rattle.cargo_files.specs.declared.refusal.Refusal.TheVariants.{Choice};

    ghost from_gives = { λ e r. r ≡ Choice e };

    fn from(fault: ChoiceFault) -> Refusal {
        Refusal::Choice(fault)
    }
}

impl From<ReadError> for Refusal {
    ghost use Rattle.std.specs.Prelude.{◌≡◌};
    ghost use Rattle.cargo_files.specs.declared.refusal.Refusal.TheVariants.{File};

    ghost from_gives = { λ e r. r ≡ File e };

    fn from(error: ReadError) -> Refusal {
        Refusal::File(error)
    }
}

impl From<AllocError> for Refusal {
    ghost use Rattle.std.specs.Prelude.{◌≡◌};
    ghost use Rattle.cargo_files.specs.declared.refusal.Refusal.TheVariants.{Memory};

    ghost from_gives = { λ _ r. r ≡ Memory };

    fn from(_: AllocError) -> Refusal {
        Refusal::Memory
    }
}

impl<T: Drop> From<AllocFailed<T>> for Refusal {
    ghost use Rattle.std.specs.Prelude.{◌≡◌};
    ghost use Rattle.cargo_files.specs.declared.refusal.Refusal.TheVariants.{Memory};

    ghost from_gives = { λ _ r. r ≡ Memory };

    fn from(_: AllocFailed<T>) -> Refusal {
        Refusal::Memory
    }
}
