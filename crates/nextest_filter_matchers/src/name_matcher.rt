//! Matchers of names: equal, contains, glob and regex.

ghost use Rattle.std.specs.Prelude.{◌≡◌, ◌↔◌, IfOk, IsOk, IsTrue};

use crate::escaped::{EscapedPattern, EscapedText};
use crate::generic_glob::GenericGlob;
use regex::Regex;
use std::alloc::{AllocError, Global};
use std::fmt;
use std::rc::Rc;

/// What a name has to be.
#[derive(Debug, Drop)]
pub enum NameMatcher {
    /// The text itself.
    Equal { value: String, implicit: bool },
    /// A name that contains the text.
    Contains { value: String, implicit: bool },
    /// A name that the glob matches.
    Glob { glob: GenericGlob, implicit: bool },
    /// A name in which the pattern is found.
    Regex(Rc<Regex>),
}

impl NameMatcher {
    ghost use Rattle.nextest_filter_matchers.specs.Copies.{pattern_of};
    ghost use Rattle.nextest_filter_matchers.specs.Matchers.{is_regex, MatchesName, matcher_of};
    ghost use Rattle.std.specs.Prelude.{false};

    /// Whether the matcher matches the name. Memory is wanted for a regex alone.
    pub fn is_match(&self, alloc: Global, name: &str) -> Result<bool, AllocError>
        ensures matches { IfOk result (λ r. IsTrue r ↔ MatchesName self.now name.now) }
        ensures answers { is_regex self.now ≡ false → IsOk result }
    {
        match self {
            NameMatcher::Equal { value, .. } => Ok(value.as_str() == name),
            NameMatcher::Contains { value, .. } => Ok(name.contains(value.as_str())),
            NameMatcher::Glob { glob, .. } => Ok(glob.is_match(name)),
            NameMatcher::Regex(regex) => {
                let mut matcher = regex.matcher(alloc)?;
                Ok(matcher.is_match(name))
            }
        }
    }

    /// An equal matcher in memory of its own, which matches the same names; a pattern is shared.
    pub fn copy(&self, alloc: Global) -> Result<NameMatcher, AllocError>
        ensures equal { IfOk result (λ c. matcher_of c ≡ matcher_of self.now) }
        ensures pattern { IfOk result (λ c. pattern_of c ≡ pattern_of self.now) }
    {
        match self {
            NameMatcher::Equal { value, implicit } => {
                let implicit = *implicit;
                let value = String::from_str(alloc, value.as_str())?;
                Ok(NameMatcher::Equal { value, implicit })
            }
            NameMatcher::Contains { value, implicit } => {
                let implicit = *implicit;
                let value = String::from_str(alloc, value.as_str())?;
                Ok(NameMatcher::Contains { value, implicit })
            }
            NameMatcher::Glob { glob, implicit } => {
                let implicit = *implicit;
                let glob = glob.copy(alloc)?;
                Ok(NameMatcher::Glob { glob, implicit })
            }
            NameMatcher::Regex(regex) => {
                let regex = Rc::clone(regex)?;
                Ok(NameMatcher::Regex(regex))
            }
        }
    }
}

impl PartialEq for NameMatcher {
    ghost use Rattle.nextest_filter_matchers.specs.Matchers.{matcher_eq, matchers_equivalent};
    ghost use Rattle.std.specs.Cmp.{partial_equiv_from_equiv};

    ghost eq = { matcher_eq };

    ghost laws = { partial_equiv_from_equiv matchers_equivalent };

    fn eq(&self, other: &NameMatcher) -> bool {
        match (self, other) {
            (
                NameMatcher::Equal { value, implicit },
                NameMatcher::Equal {
                    value: other,
                    implicit: other_is,
                },
            ) => value == other && implicit == other_is,
            (
                NameMatcher::Contains { value, implicit },
                NameMatcher::Contains {
                    value: other,
                    implicit: other_is,
                },
            ) => value == other && implicit == other_is,
            (NameMatcher::Glob { glob, .. }, NameMatcher::Glob { glob: other, .. }) => glob
                == other,
            (NameMatcher::Regex(regex), NameMatcher::Regex(other)) => {
                regex.as_str() == other.as_str()
            }
            _ => false,
        }
    }
}

impl Eq for NameMatcher {
    ghost use Rattle.nextest_filter_matchers.specs.Matchers.{matchers_equivalent};

    ghost laws = { matchers_equivalent };
}

impl fmt::Display for NameMatcher {
    ghost use Rattle.std.specs.Prelude.{Some};
    ghost use Rattle.nextest_filter_matchers.specs.Matchers.{matcher_of};
    ghost use Rattle.nextest_filter_matchers.specs.Printing.{matcher_text};

    ghost output = { λ m. Some (matcher_text (matcher_of m)) };

    fn fmt<W: fmt::Write>(&self, f: &mut fmt::Formatter<W>) -> fmt::Result {
        match self {
            NameMatcher::Equal { value, implicit } => {
                let text = EscapedText(value.as_str());
                if !*implicit {
                    f.write_str("=")?;
                }
                write!(f, "{text}")
            }
            NameMatcher::Contains { value, implicit } => {
                let text = EscapedText(value.as_str());
                if !*implicit {
                    f.write_str("~")?;
                }
                write!(f, "{text}")
            }
            NameMatcher::Glob { glob, implicit } => {
                let text = EscapedText(glob.as_str());
                if !*implicit {
                    f.write_str("#")?;
                }
                write!(f, "{text}")
            }
            NameMatcher::Regex(regex) => {
                let pattern = EscapedPattern(regex.as_str());
                write!(f, "/{pattern}/")
            }
        }
    }
}
