//! Globs with their texts.

ghost use Rattle.std.specs.Prelude.{◌≡◌, ◌↔◌, IfOk, IsTrue, string_bytes, true};
ghost use Rattle.std.specs.Str.{chars};
ghost use Rattle.nextest_filter_matchers.specs.GlobReading.{read_glob};
ghost use Rattle.nextest_filter_matchers.specs.GlobViews.{glob_of};
ghost use Rattle.nextest_filter_matchers.specs.Globs.{GlobMatches};
ghost use Rattle.nextest_filter_matchers.specs.Identities.{is_plainly, is_read_as};
ghost use Rattle.nextest_filter_matchers.specs.Walks.{has_room};

use crate::glob_error::GlobError;
use crate::glob_pattern::Pattern;
use crate::glob_reading::read_pattern;
use crate::glob_search::parts_match;
use crate::glob_sequence::suits_tokens;
use crate::glob_walk::walks_through;
use std::alloc::{AllocError, Global};
use std::fmt;

/// A glob, with the text that it was read from.
#[derive(Drop)]
pub struct GenericGlob {
    text: String,
    pattern: Pattern,
    /// Whether the tokens are the text's characters.
    is_plain: bool,
    /// How many flags a walk takes; none for more than are set aside for one.
    room: Option<usize>,
    ghost has_tokens: { is_read_as (read_glob (chars (string_bytes text))) (glob_of pattern) ≡ true },
    ghost is_spelled: { is_plainly is_plain (chars (string_bytes text)) (glob_of pattern) ≡ true },
    ghost fits: { has_room room (glob_of pattern) ≡ true },
}

impl GenericGlob {
    ghost use Rattle.nextest_filter_matchers.specs.Globs.{GlobMatches};
    ghost use Rattle.nextest_filter_matchers.specs.Matchers.{glob_text, tokens_of, is_glob_read};

    // The outer `Result` is for want of memory, the inner for a text that is no glob. The first fault from the left
    // is told, that of a class before the braces that hold it.
    /// Reads a glob, or says why the text is none.
    pub fn new(alloc: Global, text: String) -> Result<Result<GenericGlob, GlobError>, AllocError>
        ensures { IfOk result (λ r. is_glob_read (string_bytes text) r) }
    {
        let characters = characters_of(alloc, text.as_str())?;
        match read_pattern(alloc, &characters)? {
            Ok(pattern) => {
                let is_plain = pattern.spells(&characters);
                let room = pattern.room();
                Ok(Ok(GenericGlob {
                    text,
                    pattern,
                    is_plain,
                    room,
                }))
            }
            Err(error) => Ok(Err(error)),
        }
    }

    /// The text of the glob.
    pub fn as_str(&self) -> &str
        ensures { result.now ≡ glob_text self.now }
    {
        self.text.as_str()
    }

    // It takes no memory. Without braces two places are enough: the first place where the tokens behind a gap go on
    // is as good as any later one (`first_is_best`). With braces one walk over the name has a flag or two for each
    // token, on the stack. A glob whose tokens are its text's characters is compared as text.
    /// Whether the glob matches the whole text, in time of its tokens times the text's characters. Only one
    /// with braces and more than 65,536 tokens may take longer.
    pub fn is_match(&self, text: &str) -> bool
        ensures { IsTrue result ↔ GlobMatches (tokens_of self.now) (chars text.now) }
    {
        if self.is_plain {
            return self.text.as_str() == text;
        }
        match (&self.pattern, self.room) {
            (Pattern::Sequence(tokens), _) => suits_tokens(tokens, text),
            (pattern, Some(room)) => walks_through(pattern, room, text),
            (pattern, None) => parts_match(pattern, text),
        }
    }

    /// An equal glob in memory of its own.
    pub fn copy(&self, alloc: Global) -> Result<GenericGlob, AllocError>
        ensures text { IfOk result (λ c. glob_text c ≡ glob_text self.now) }
        ensures tokens { IfOk result (λ c. tokens_of c ≡ tokens_of self.now) }
    {
        let text = String::from_str(alloc, self.text.as_str())?;
        let pattern = self.pattern.copy(alloc)?;
        Ok(GenericGlob {
            text,
            pattern,
            is_plain: self.is_plain,
            room: self.room,
        })
    }
}

/// The characters of a text.
fn characters_of(alloc: Global, text: &str) -> Result<Vec<char>, AllocError>
    ensures { IfOk result (λ v. v.items ≡ chars text.now) }
{
    let mut characters = Vec::new(alloc);
    for c in text.chars() {
        characters.push(c)?;
    }
    Ok(characters)
}

impl PartialEq for GenericGlob {
    ghost use Rattle.nextest_filter_matchers.specs.Matchers.{generic_glob_eq, generic_globs_equivalent};
    ghost use Rattle.std.specs.Cmp.{partial_equiv_from_equiv};

    ghost eq = { generic_glob_eq };

    ghost laws = { partial_equiv_from_equiv generic_globs_equivalent };

    fn eq(&self, other: &GenericGlob) -> bool {
        self.pattern.is_same(&other.pattern)
    }
}

impl Eq for GenericGlob {
    ghost use Rattle.nextest_filter_matchers.specs.Matchers.{generic_globs_equivalent};

    ghost laws = { generic_globs_equivalent };
}

impl fmt::Debug for GenericGlob {
    fn fmt<W: fmt::Write>(&self, f: &mut fmt::Formatter<W>) -> fmt::Result {
        f.debug_tuple("GenericGlob").field(&self.as_str()).finish()
    }
}
