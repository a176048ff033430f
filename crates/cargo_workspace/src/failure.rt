//! Why a run of the program ends early.

ghost use Rattle.std.specs.Prelude.{◌≡◌};
ghost use Rattle.clap.specs.Words.{kind_of};
ghost use Rattle.clap.specs.declared.error.ErrorKind.TheVariants.{OutOfMemory};
ghost use Rattle.cargo_workspace.specs.Failures.{IsBadLine, status_of};
ghost use Rattle.cargo_workspace.specs.declared.failure.Failure.TheVariants.{CannotWrite, Memory};

use cargo_files::RefusedFile;
use clap::error::ErrorKind;
use std::alloc::AllocError;
use std::{fmt, io};

/// Why a run of the program ends early. Names of files are as the command line gives them.
#[derive(Drop)]
pub(crate) enum Failure<'a> {
    /// The command line is refused.
    CommandLine(clap::Error),
    /// The file with this name cannot be read.
    CannotRead(&'a str),
    /// A file was read and is refused.
    Refused(RefusedFile<'a>),
    /// The output does not take what is written.
    CannotWrite,
    /// Memory ran out.
    Memory,
}

impl Failure<'_> {
    /// The status with which the program ends.
    pub(crate) fn status(&self) -> u8
        ensures status { result ≡ status_of self.now }
    {
        match self {
            Failure::CommandLine(_) => 2,
            _ => 1,
        }
    }
}

/// The lines that tell of the failure, each with its line feed.
impl fmt::Display for Failure<'_> {
    ghost use Rattle.cargo_workspace.specs.Failures.{failure_lines};

    ghost output = { λ failure. failure_lines failure };

    fn fmt<W: fmt::Write>(&self, f: &mut fmt::Formatter<W>) -> fmt::Result {
        match self {
            Failure::CommandLine(error) => write!(f, "{error}"),
            Failure::CannotRead(name) => writeln!(f, "cannot read {name}"),
            Failure::Refused(file) => writeln!(f, "{file}"),
            Failure::CannotWrite => f.write_str("cannot write\n"),
            Failure::Memory => f.write_str("out of memory\n"),
        }
    }
}

impl From<clap::Error> for Failure<'_> {
    ghost from_gives = { λ e f. (kind_of e ≡ OutOfMemory → f ≡ Memory) × IsBadLine f };

    fn from(error: clap::Error) -> Self {
        match error.kind() {
            ErrorKind::OutOfMemory => Failure::Memory,
            _ => Failure::CommandLine(error),
        }
    }
}

impl From<io::Error> for Failure<'_> {
    ghost from_gives = { λ _ f. f ≡ CannotWrite };

    fn from(_: io::Error) -> Self {
        Failure::CannotWrite
    }
}

impl From<AllocError> for Failure<'_> {
    ghost from_gives = { λ _ f. f ≡ Memory };

    fn from(_: AllocError) -> Self {
        Failure::Memory
    }
}
