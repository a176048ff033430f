//! Filter texts that are refused.

ghost use Rattle.std.specs.Prelude.{IfOk};
ghost use Rattle.nextest_filtering.specs.CopiedFaults.{AreSame};

use nextest_filter_syntax::ParseSingleError;
use std::alloc::{AllocError, Global};
use thiserror::Error;

/// A filter text that is refused, with its faults.
#[derive(Debug, Drop)]
pub struct FiltersetParseErrors {
    /// The text.
    pub input: String,
    /// Its faults, of which there is one at least.
    pub errors: Vec<ParseSingleError>,
}

impl FiltersetParseErrors {
    ghost use Rattle.std.specs.Prelude.{◌≡◌, IfOk, string_bytes};
    ghost use Rattle.nextest_filtering.specs.CopiedFaults.{AreSame};

    /// The same text and the same faults, in memory of their own.
    pub fn copy(&self, alloc: Global) -> Result<FiltersetParseErrors, AllocError>
        ensures input { IfOk result (λ c. string_bytes c.input ≡ string_bytes self.now.input) }
        ensures errors { IfOk result (λ c. AreSame self.now.errors.items c.errors.items) }
    {
        let errors = copied(alloc, &self.errors)?;
        match String::from_str(alloc, self.input.as_str()) {
            Ok(input) => Ok(FiltersetParseErrors { input, errors }),
            Err(refused) => {
                drop(errors);
                Err(refused)
            }
        }
    }
}

/// The same faults in memory of their own.
fn copied(alloc: Global, faults: &[ParseSingleError]) -> Result<Vec<ParseSingleError>, AllocError>
    ensures { IfOk result (λ c. AreSame faults.now c.items) }
{
    let mut copies = Vec::new(alloc);
    for fault in faults {
        copies.push(fault.copy(alloc)?)?;
    }
    Ok(copies)
}

/// Why no filter was made of a text.
#[derive(Debug, Drop, Error)]
pub enum FiltersetError {
    /// The text is refused.
    #[error("invalid filter")]
    Parse(FiltersetParseErrors),
    #[error("out of memory")]
    Memory,
}

impl From<AllocError> for FiltersetError {
    ghost use Rattle.std.specs.Prelude.{◌≡◌};
    ghost use Rattle.nextest_filtering.specs.declared.refusals.FiltersetError.TheVariants.{Memory};

    ghost from_gives = { λ _ e. e ≡ Memory };

    fn from(_refused: AllocError) -> FiltersetError {
        FiltersetError::Memory
    }
}
