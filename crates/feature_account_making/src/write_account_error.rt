//! Why an account was not written.

ghost use Rattle.std.specs.Prelude.{◌≡◌};
ghost use Rattle.feature_account_making.specs.declared.write_account_error.WriteAccountError.TheVariants.{Memory, Write};

use std::alloc::AllocError;
use std::io;

// A writer can itself fail for want of memory, so this is told apart: where `Memory` is answered nothing was
// written.
/// Why an account was not written whole.
#[derive(Debug, Drop)]
pub enum WriteAccountError {
    /// Memory ran out, before anything was written.
    Memory,
    /// The writer failed.
    Write(io::Error),
}

impl From<AllocError> for WriteAccountError {
    ghost from_gives = { λ _ e. e ≡ Memory };

    fn from(_: AllocError) -> Self {
        WriteAccountError::Memory
    }
}

impl From<io::Error> for WriteAccountError {
    ghost from_gives = { λ fault e. e ≡ Write fault };

    fn from(fault: io::Error) -> Self {
        WriteAccountError::Write(fault)
    }
}
