//! Why a run of a program ends early.

ghost use Rattle.std.specs.Prelude.{◌≡◌};
ghost use Rattle.std.specs.Fmt.{WritesOnOk};
ghost use Rattle.clap.specs.Words.{kind_of};
ghost use Rattle.clap.specs.declared.error.ErrorKind.TheVariants.{OutOfMemory};
ghost use Rattle.test_select_files.specs.Failures.{bad_shape_line, is_denial, status_of};
ghost use Rattle.test_select_files.specs.Mistakes.{IsBadLine};
ghost use Rattle.test_select_files.specs.Refusals.{unread};
ghost use Rattle.test_select_files.specs.declared.run_failure.RunFailure.TheVariants.{CannotWrite, Memory};

use crate::file_source::FileFault;
use clap::error::ErrorKind;
use record_files::{Field, ReadError};
use std::alloc::{AllocError, AllocFailed};
use std::{fmt, io};

/// Why a run of a program ends early. Names of files are as the command line gives them.
#[derive(Drop)]
pub enum RunFailure<'a> {
    /// The command line is refused.
    CommandLine(clap::Error),
    /// The file with this name cannot be read.
    CannotRead(&'a str),
    /// The file with this name was read and is refused.
    BadFile(&'a str, ReadError),
    /// What was asked is denied, as the output says.
    Denied,
    /// The output does not take what is written.
    CannotWrite,
    /// Memory ran out.
    Memory,
}

impl<'a> RunFailure<'a> {
    /// Why the file with this name was not read.
    pub(crate) fn unread(name: &'a str, fault: FileFault) -> RunFailure<'a>
        ensures status { status_of result ≡ 1 }
        ensures why { result ≡ unread name.entry fault }
    {
        match fault {
            FileFault::CannotRead => RunFailure::CannotRead(name),
            FileFault::Memory => RunFailure::Memory,
        }
    }

    /// Whether the output says it all, so that standard error gets nothing.
    pub fn is_denial(&self) -> bool
        ensures denial { result ≡ is_denial self.now }
    {
        matches!(self, RunFailure::Denied)
    }

    /// The status with which the program ends.
    pub fn status(&self) -> u8
        ensures status { result ≡ status_of self.now }
    {
        match self {
            RunFailure::CommandLine(_) => 2,
            _ => 1,
        }
    }
}

/// The lines that tell of the failure, each with its line feed.
impl fmt::Display for RunFailure<'_> {
    ghost use Rattle.test_select_files.specs.Failures.{failure_lines};

    ghost output = { λ failure. failure_lines failure };

    fn fmt<W: fmt::Write>(&self, f: &mut fmt::Formatter<W>) -> fmt::Result {
        match self {
            RunFailure::CommandLine(error) => write!(f, "{error}"),
            RunFailure::CannotRead(name) => write!(f, "cannot read {name}\n"),
            RunFailure::BadFile(name, ReadError::BadJson) => write!(f, "{name}: bad JSON\n"),
            RunFailure::BadFile(name, ReadError::BadShape(field)) => write_bad_shape(
                f, name, field,
            ),
            RunFailure::BadFile(_, ReadError::Memory) => f.write_str("out of memory\n"),
            RunFailure::Denied => Ok(()),
            RunFailure::CannotWrite => f.write_str("cannot write\n"),
            RunFailure::Memory => f.write_str("out of memory\n"),
        }
    }
}

fn write_bad_shape<W: fmt::Write>(
    f: &mut fmt::Formatter<W>,
    name: &str,
    field: &Field,
) -> fmt::Result
    ensures { WritesOnOk W.write_str_gives f.old result (bad_shape_line name.now field.now) f.new }
{
    write!(f, "{name}: bad shape at {field}\n")
}

impl From<clap::Error> for RunFailure<'_> {
    ghost from_gives = { λ e f. (kind_of e ≡ OutOfMemory → f ≡ Memory) × IsBadLine f };

    fn from(error: clap::Error) -> Self {
        match error.kind() {
            ErrorKind::OutOfMemory => RunFailure::Memory,
            _ => RunFailure::CommandLine(error),
        }
    }
}

impl From<io::Error> for RunFailure<'_> {
    ghost from_gives = { λ _ f. f ≡ CannotWrite };

    fn from(_: io::Error) -> Self {
        RunFailure::CannotWrite
    }
}

impl From<AllocError> for RunFailure<'_> {
    ghost from_gives = { λ _ f. f ≡ Memory };

    fn from(_: AllocError) -> Self {
        RunFailure::Memory
    }
}

impl<T: Drop> From<AllocFailed<T>> for RunFailure<'_> {
    ghost from_gives = { λ _ f. f ≡ Memory };

    fn from(_: AllocFailed<T>) -> Self {
        RunFailure::Memory
    }
}
