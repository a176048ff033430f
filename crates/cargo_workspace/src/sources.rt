//! Where the program's files come from.

ghost use Rattle.std.specs.Prelude.{ℕ, List, Option, Result};
ghost use Rattle.test_select_files.specs.Files.{SameAnswers};
ghost use Rattle.test_select_files.specs.declared.file_source.FileFault.{FileFault};
ghost use Rattle.cargo_workspace.specs.Files.{answer_of};

use std::alloc::{AllocGlobal, Global};
use std::fs;
use std::io::ErrorKind;
use std::rt::Files;
use test_select_files::FileFault;

/// The files that the program reads, under the names that its command line gives them. The state of a
/// source is seen as a list of whole numbers; its answers relate the state before, the name, what is
/// answered, and the state after, and no call changes them.
pub(crate) trait Sources {
    ghost state: { Self → List ℕ };

    ghost answers: { Self → List ℕ → List ℕ → Result (Option (List ℕ)) FileFault → List ℕ
        → Type 0 };

    /// The bytes of the file with this name, if there is such a file.
    fn read(&mut self, alloc: Global, name: &str) -> Result<Option<Vec<u8>>, FileFault>
        ensures answer { answers self.old (state self.old) name.now (answer_of result)
            (state self.new) }
        ensures same { SameAnswers (answers self.old) (answers self.new) };
}

/// The files of the system, by their paths. Each answer is allowed, since no clause can say what a disk
/// holds.
#[derive(Drop)]
pub(crate) struct SystemSources<'a, R> {
    pub(crate) rt: &'a R,
}

impl<R: Files + AllocGlobal> Sources for SystemSources<'_, R> {
    ghost use Rattle.std.specs.Prelude.{[]};

    ghost state = { λ _. [] };

    ghost answers = { λ _ _ _ _ _. Unit {0} };

    fn read(&mut self, _alloc: Global, name: &str) -> Result<Option<Vec<u8>>, FileFault> {
        match fs::read(self.rt, name) {
            Ok(bytes) => Ok(Some(bytes)),
            Err(error) => match error.kind() {
                ErrorKind::NotFound => Ok(None),
                ErrorKind::OutOfMemory => Err(FileFault::Memory),
                _ => Err(FileFault::CannotRead),
            },
        }
    }
}
