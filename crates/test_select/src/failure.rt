//! Why a run of the program ends early.

ghost use Rattle.std.specs.Prelude.{◌≡◌};
ghost use Rattle.std.specs.Fmt.{WritesOnOk};
ghost use Rattle.test_select_files.specs.declared.run_failure.RunFailure.TheVariants.{CannotWrite, Memory};
ghost use Rattle.test_select.specs.Failures.{bad_partition_lines, is_denial, status_of, unwritten};
ghost use Rattle.test_select.specs.declared.failure.Failure.TheVariants.{Refused, Run};

use nextest_filter_syntax::GlobError;
use std::alloc::{AllocError, AllocFailed};
use std::{fmt, io};
use test_select_checks::SelectError;
use test_select_features::WriteAccountError;
use test_select_files::RunFailure;

/// Why a run of the program ends early.
#[derive(Drop)]
pub(crate) enum Failure<'a> {
    /// The command line or a file is refused, the output takes no more, memory ran out, or what was asked
    /// is denied, as the output says.
    Run(RunFailure<'a>),
    /// The record, the choice, a filter text or a listing is refused.
    Refused(SelectError),
    /// The command line names no part of the tests.
    BadPartition(&'a str),
    /// The file with this name is not UTF-8.
    NotText(&'a str),
    /// The text is no glob.
    BadGlob(&'a str, GlobError),
    /// The path is absolute, or steps up.
    NotBelow(String),
}

impl Failure<'_> {
    /// Whether the output says it all, so that standard error gets nothing.
    pub(crate) fn is_denial(&self) -> bool
        ensures { result ≡ is_denial self.now }
    {
        match self {
            Failure::Run(failure) => failure.is_denial(),
            _ => false,
        }
    }

    /// The status with which the program ends.
    pub(crate) fn status(&self) -> u8
        ensures { result ≡ status_of self.now }
    {
        match self {
            Failure::Run(failure) => failure.status(),
            Failure::BadPartition(_) => 2,
            _ => 1,
        }
    }
}

/// The lines that tell of the failure, each with its line feed.
impl fmt::Display for Failure<'_> {
    ghost use Rattle.test_select.specs.Failures.{failure_lines};

    ghost output = { λ failure. failure_lines failure };

    fn fmt<W: fmt::Write>(&self, f: &mut fmt::Formatter<W>) -> fmt::Result {
        match self {
            Failure::Run(failure) => write!(f, "{failure}"),
            Failure::Refused(error) => write!(f, "{error}\n"),
            Failure::BadPartition(text) => write_bad_partition(f, text),
            Failure::NotText(name) => write!(f, "{name}: not UTF-8\n"),
            Failure::BadGlob(text, error) => write!(f, "ignore {text}: {error}\n"),
            Failure::NotBelow(path) => {
                write!(f, "path {path}: not below the workspace's root\n")
            }
        }
    }
}

/// As `clap` tells of a value that it does not take.
fn write_bad_partition<W: fmt::Write>(f: &mut fmt::Formatter<W>, text: &str) -> fmt::Result
    ensures { WritesOnOk W.write_str_gives f.old result (bad_partition_lines text.now) f.new }
{
    write!(
        f,
        "error: invalid value '{text}' for '--partition <count:M/N>': expected M from 1 to N\n\nFor more information, try '--help'.\n"
    )
}

impl<'a> From<RunFailure<'a>> for Failure<'a> {
    ghost from_gives = { λ failure f. f ≡ Run failure };

    fn from(failure: RunFailure<'a>) -> Self {
        Failure::Run(failure)
    }
}

impl From<SelectError> for Failure<'_> {
    ghost from_gives = { λ refused f. f ≡ Refused refused };

    fn from(error: SelectError) -> Self {
        Failure::Refused(error)
    }
}

impl From<WriteAccountError> for Failure<'_> {
    ghost from_gives = { λ error f. (f ≡ Run (unwritten error)) × (status_of f ≡ 1) };

    fn from(error: WriteAccountError) -> Self {
        match error {
            WriteAccountError::Memory => Failure::Run(RunFailure::Memory),
            WriteAccountError::Write(_) => Failure::Run(RunFailure::CannotWrite),
        }
    }
}

impl From<io::Error> for Failure<'_> {
    ghost from_gives = { λ _ f. f ≡ Run CannotWrite };

    fn from(_: io::Error) -> Self {
        Failure::Run(RunFailure::CannotWrite)
    }
}

impl From<AllocError> for Failure<'_> {
    ghost from_gives = { λ _ f. f ≡ Run Memory };

    fn from(_: AllocError) -> Self {
        Failure::Run(RunFailure::Memory)
    }
}

impl<T: Drop> From<AllocFailed<T>> for Failure<'_> {
    ghost from_gives = { λ _ f. f ≡ Run Memory };

    fn from(_: AllocFailed<T>) -> Self {
        Failure::Run(RunFailure::Memory)
    }
}
