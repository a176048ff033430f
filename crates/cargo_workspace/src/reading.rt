//! Files, read one by one, and what is made of each.

ghost use Rattle.std.specs.Prelude.{◌≡◌, IfErr};
ghost use Rattle.test_select_files.specs.Files.{SameAnswers};
ghost use Rattle.cargo_workspace.specs.Failures.{accepted, status_of};
ghost use Rattle.cargo_workspace.specs.Files.{Asks};
ghost use Rattle.cargo_workspace.specs.Reading.{ReadsBytes, shown};

use crate::failure::Failure;
use crate::sources::Sources;
use cargo_files::{Refusal, RefusedFile};
use std::alloc::Global;
use test_select_files::FileFault;

/// The bytes of the file with this name.
pub(crate) fn bytes_in<'a>(
    alloc: Global,
    name: &'a str,
    files: &mut dyn Sources,
) -> Result<Vec<u8>, Failure<'a>>
    ensures status { IfErr result (λ f. status_of f ≡ 1) }
    ensures reads { Asks (answers files.old) (state files.old) (state files.new)
        (ReadsBytes name.now (shown (λ bytes. bytes.items) result)) }
    ensures same { SameAnswers (answers files.old) (answers files.new) }
{
    match files.read(alloc, name) {
        Ok(Some(bytes)) => Ok(bytes),
        Ok(None) => Err(Failure::CannotRead(name)),
        Err(FileFault::CannotRead) => Err(Failure::CannotRead(name)),
        Err(FileFault::Memory) => Err(Failure::Memory),
    }
}

/// What was made of the file with this name.
pub(crate) fn accepted<T>(name: &str, made: Result<T, Refusal>) -> Result<T, Failure<'_>>
    ensures status { IfErr result (λ f. status_of f ≡ 1) }
    ensures accepted { result ≡ accepted name.entry made }
{
    match made {
        Ok(value) => Ok(value),
        Err(Refusal::Memory) => Err(Failure::Memory),
        Err(refusal) => Err(Failure::Refused(RefusedFile { name, refusal })),
    }
}
