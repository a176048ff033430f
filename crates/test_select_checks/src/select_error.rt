//! Why a selection is refused.

ghost use Rattle.std.specs.Prelude.{◌≡◌};
ghost use Rattle.std.specs.Fmt.{WritesOnOk};
ghost use Rattle.test_select_checks.specs.declared.select_error.SelectError.TheVariants.{Memory};
ghost use Rattle.test_select_checks.specs.RefusalTexts.{record_text};

use crate::fault_lines::write_faults;
use crate::record_error::RecordError;
use nextest_binaries::ListingFault;
use nextest_filter_tokens::ParseSingleError;
use std::alloc::{AllocError, AllocFailed};
use std::fmt;

/// Why a record, a choice, filter texts or a run is refused. Want of memory is always `Memory`.
#[derive(Debug, Drop, PartialEq, Eq)]
pub enum SelectError {
    /// The record is refused.
    Record(RecordError),
    /// The extra at this place names no member, or no feature of it.
    UnknownExtra(usize),
    /// The filter text at this place has these faults.
    Filter(usize, Vec<ParseSingleError>),
    /// The lister has no listing of the binary with this id, or failed before.
    Lister(String),
    /// The listing of the binary with this id is not well-formed.
    BadListing(String, ListingFault),
    /// Memory ran out.
    Memory,
}

impl fmt::Display for SelectError {
    ghost use Rattle.std.specs.Prelude.{Some};
    ghost use Rattle.test_select_checks.specs.RefusalTexts.{refusal_text};

    ghost output = { λ e. Some (refusal_text e) };

    fn fmt<W: fmt::Write>(&self, f: &mut fmt::Formatter<W>) -> fmt::Result {
        match self {
            SelectError::Record(error) => write_record_error(f, error),
            SelectError::UnknownExtra(place) => write!(f, "choice: unknown extra {place}"),
            SelectError::Filter(place, errors) => write_faults(f, "", *place, errors),
            SelectError::Lister(id) => write!(f, "lister: {id}"),
            SelectError::BadListing(id, fault) => write!(f, "listing of {id}: {fault}"),
            SelectError::Memory => f.write_str("out of memory"),
        }
    }
}

/// Why a record is refused, on each line behind the word that says so.
fn write_record_error<W: fmt::Write>(f: &mut fmt::Formatter<W>, error: &RecordError) -> fmt::Result
    ensures { WritesOnOk W.write_str_gives f.old result (record_text error.now) f.new }
{
    match error {
        RecordError::Filter { place, errors } => write_faults(f, "record: ", *place, errors),
        _ => write!(f, "record: {error}"),
    }
}

impl From<RecordError> for SelectError {
    ghost use Rattle.std.specs.Prelude.{◌≡◌};
    ghost use Rattle.test_select_checks.specs.Errors.{select_error_of};

    ghost from_gives = { λ refused e. e ≡ select_error_of refused };

    fn from(refused: RecordError) -> Self {
        match refused {
            RecordError::Memory => SelectError::Memory,
            _ => SelectError::Record(refused),
        }
    }
}

impl From<AllocError> for SelectError {
    ghost from_gives = { λ _ e. e ≡ Memory };

    fn from(_: AllocError) -> Self {
        SelectError::Memory
    }
}

impl<T: Drop> From<AllocFailed<T>> for SelectError {
    ghost from_gives = { λ _ e. e ≡ Memory };

    fn from(_: AllocFailed<T>) -> Self {
        SelectError::Memory
    }
}
