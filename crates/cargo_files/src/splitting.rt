//! The words of `--features` and its like.

ghost use Rattle.std.specs.Prelude.{◌≡◌, ◌++◌, ◌∷◌, [], IfOk, OnOk, List, filter, map};
ghost use Rattle.workspace_record.specs.Records.{Text};
ghost use Rattle.cargo_files.specs.Parting.{AreWords, AreWordsOf, is_word};

use std::alloc::{AllocError, Global};

/// The words of lists, which commas or blanks part.
pub fn feature_words<'a>(alloc: Global, lists: &[&'a str]) -> Result<Vec<&'a str>, AllocError>
    ensures words { IfOk result (λ v. AreWordsOf (map (λ t. t.now) lists.entry.now)
        (map (λ t. t.now) v.items)) }
{
    let mut words = Vec::new(alloc);
    for list in lists {
        push_words(&mut words, list)?;
    }
    Ok(words)
}

/// Adds the words of a list: what stands between commas and blanks.
fn push_words<'a>(words: &mut Vec<&'a str>, list: &'a str) -> Result<(), AllocError>
    ensures { OnOk result ((own : List Text) × AreWords list.entry.now own
        × (map (λ t. t.now) words.new.items ≡ map (λ t. t.now) words.old.items ++ own)) }
{
    for piece in list.split(|c: char| c == ',' || c.is_whitespace()) {
        push_word(words, piece)?;
    }
    Ok(())
}

/// Adds a piece, if something stands in it.
fn push_word<'a>(words: &mut Vec<&'a str>, piece: &'a str) -> Result<(), AllocError>
    ensures { OnOk result (map (λ t. t.now) words.new.items
        ≡ map (λ t. t.now) words.old.items ++ filter is_word (piece.entry.now ∷ [])) }
{
    if !piece.is_empty() {
        words.push(piece)?;
    }
    Ok(())
}
