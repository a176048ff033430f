//! Where a program's files come from.

ghost use Rattle.std.specs.Prelude.{ℕ, List, Result};
ghost use Rattle.test_select_files.specs.Files.{SameAnswers, answer_of};
ghost use Rattle.test_select_files.specs.declared.file_source.FileFault.{FileFault};

use std::alloc::{AllocGlobal, Global};
use std::fs;
use std::io::ErrorKind;
use std::rt::Files;
use thiserror::Error;

/// Why a file was not read.
#[derive(Clone, Copy, Debug, PartialEq, Eq, Error)]
pub enum FileFault {
    /// There is no such file, or it cannot be read.
    #[error("cannot read")]
    CannotRead,
    /// There was no memory for what the file holds.
    #[error("out of memory")]
    Memory,
}

/// The files that a program reads, under the names that its command line gives them. The state of a
/// source is seen as a list of whole numbers; its answers relate the state before, the name, the bytes or
/// the fault, and the state after, and no call changes them.
pub trait FileSource {
    ghost state: { Self → List ℕ };

    ghost answers: { Self → List ℕ → List ℕ → Result (List ℕ) FileFault → List ℕ → Type 0 };

    /// The bytes of the file with this name.
    fn read(&mut self, alloc: Global, name: &str) -> Result<Vec<u8>, FileFault>
        ensures answer { answers self.old (state self.old) name.now (answer_of result)
            (state self.new) }
        ensures same { SameAnswers (answers self.old) (answers self.new) };
}

/// The files of the system, by their paths. Each answer is allowed, since no clause can say what a disk
/// holds.
#[derive(Drop)]
pub struct SystemFiles<'a, R> {
    pub rt: &'a R,
}

impl<R: Files + AllocGlobal> FileSource for SystemFiles<'_, R> {
    ghost use Rattle.std.specs.Prelude.{[]};

    ghost state = { λ _. [] };

    ghost answers = { λ _ _ _ _ _. Unit {0} };

    fn read(&mut self, _alloc: Global, name: &str) -> Result<Vec<u8>, FileFault> {
        match fs::read(self.rt, name) {
            Ok(bytes) => Ok(bytes),
            Err(error) if error.kind() == ErrorKind::OutOfMemory => Err(FileFault::Memory),
            Err(_) => Err(FileFault::CannotRead),
        }
    }
}
