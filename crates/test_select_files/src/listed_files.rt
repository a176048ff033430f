//! Files that are held in memory, each under its name.

ghost use Rattle.std.specs.Prelude.{◌≡◌, find, option_map};
ghost use Rattle.std.specs.Str.{bytes_eq};

use crate::file_source::{FileFault, FileSource};
use std::alloc::Global;

/// A file that is held in memory: its name, and its bytes.
#[derive(Clone, Copy)]
pub struct ListedFile<'a> {
    pub name: &'a str,
    pub bytes: &'a [u8],
}

/// Files that are held in memory. Of two with one name the first counts.
#[derive(Drop)]
pub struct ListedFiles<'a> {
    pub files: &'a [ListedFile<'a>],
}

impl FileSource for ListedFiles<'_> {
    ghost use Rattle.std.specs.Prelude.{[]};
    ghost use Rattle.test_select_files.specs.Listed.{AnswersListed};

    ghost state = { λ _. [] };

    ghost answers = { λ source. AnswersListed source.files.now };

    fn read(&mut self, alloc: Global, name: &str) -> Result<Vec<u8>, FileFault> {
        let Some(file) = file_named(self.files, name) else {
            return Err(FileFault::CannotRead);
        };
        match file.bytes.to_vec(alloc) {
            Ok(copy) => Ok(copy),
            Err(_) => Err(FileFault::Memory),
        }
    }
}

/// The first file with this name.
fn file_named<'m, 'a>(files: &'m [ListedFile<'a>], name: &str) -> Option<&'m ListedFile<'a>>
    ensures { option_map (λ f. f.now) result ≡ find (λ f. bytes_eq f.name.now name.now) files.now }
{
    files.iter().find(|file| file.name == name)
}
