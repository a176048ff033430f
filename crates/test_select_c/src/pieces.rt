//! Words and files, of bytes in which they stand one after another.

ghost use Rattle.std.specs.Prelude.{◌≡◌, ◌↔◌, ◌++◌, ◌∷◌, Contains, IfNone, IfOk, IfSome, List, Some, ℕ, length};
ghost use Rattle.std.specs.Int.{from_le_bytes, w64};
ghost use Rattle.test_select_c.specs.Pieces.{AreFiles, AreWords, BeginsFile, File};
ghost use Rattle.test_select_c.specs.PieceViews.{file_view, files_found, words_found};

use memchr::memchr;
use std::alloc::{AllocError, Global};
use std::str;
use test_select_files::ListedFile;

/// The words, each of which a zero byte ends; none where the last has no end or one is no UTF-8.
pub(crate) fn words_of<'a>(
    alloc: Global,
    bytes: &'a [u8],
) -> Result<Option<Vec<&'a str>>, AllocError>
    ensures { IfOk result (λ found. (words : List (List ℕ)) → AreWords bytes.entry.now words
        ↔ (words_found found ≡ Some words)) }
{
    let mut words = Vec::new(alloc);
    let mut rest = bytes;
    while let Some((word, behind)) = before_zero(rest) {
        let Ok(word) = str::from_utf8(word) else {
            return Ok(None);
        };
        words.push(word)?;
        rest = behind;
    }
    if !rest.is_empty() {
        return Ok(None);
    }
    Ok(Some(words))
}

/// The files: each its name, a zero byte, how many bytes it holds in eight bytes, the lowest first, and these
/// bytes; none where the last is cut off or a name is no UTF-8.
pub(crate) fn files_of<'a>(
    alloc: Global,
    bytes: &'a [u8],
) -> Result<Option<Vec<ListedFile<'a>>>, AllocError>
    ensures { IfOk result (λ found. (files : List File) → AreFiles bytes.entry.now files
        ↔ (files_found found ≡ Some files)) }
{
    let mut files = Vec::new(alloc);
    let mut rest = bytes;
    while let Some((file, behind)) = first_file(rest) {
        files.push(file)?;
        rest = behind;
    }
    if !rest.is_empty() {
        return Ok(None);
    }
    Ok(Some(files))
}

/// The file with which the bytes begin, and what stands behind it.
fn first_file<'a>(bytes: &'a [u8]) -> Option<(ListedFile<'a>, &'a [u8])>
    ensures none { IfNone result ((file : File) (rest : List ℕ) → ¬ (BeginsFile bytes.entry.now file rest)) }
    ensures some { IfSome result (λ p. BeginsFile bytes.entry.now (file_view p.0) p.1.now) }
{
    let (name, sized) = before_zero(bytes)?;
    let Ok(name) = str::from_utf8(name) else {
        return None;
    };
    let (size, behind) = sized.split_at_checked(8)?;
    let (content, rest) = behind.split_at_checked(number_of(size))?;
    Some((
        ListedFile {
            name,
            bytes: content,
        },
        rest,
    ))
}

/// The number that eight bytes say, the lowest first.
fn number_of(bytes: &[u8]) -> usize
    requires { length bytes.now ≡ 8 }
    ensures { result ≡ from_le_bytes w64 bytes.now }
{
    let mut word = [0u8; 8];
    word.copy_from_slice(bytes);
    usize::from_le_bytes(word)
}

/// What stands before the first zero byte, and what behind it.
fn before_zero(bytes: &[u8]) -> Option<(&[u8], &[u8])>
    ensures none { IfNone result (¬ (Contains bytes.entry.now 0)) }
    ensures some { IfSome result (λ p. (bytes.entry.now ≡ p.0.now ++ 0 ∷ p.1.now)
        × ¬ (Contains p.0.now 0)) }
{
    let at = memchr(0, bytes)?;
    Some((&bytes[..at], &bytes[at + 1..]))
}
