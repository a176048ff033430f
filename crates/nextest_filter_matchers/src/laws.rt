//! Laws that hold of all matchers.

ghost use Rattle.nextest_filter_matchers.specs.GlobGrammar.{GlobsReadOnce};
ghost use Rattle.nextest_filter_matchers.specs.Laws.{MatchersAreLawful};

/// Equality of matchers is an equivalence: globs by their tokens, patterns by their text, and
/// `implicit` for texts that are equal or contained alone.
pub fn matchers_are_lawful()
    ensures { MatchersAreLawful }
{}

/// A text reads as one glob or is refused for one reason: by a relation of what a glob's text may be.
pub fn globs_read_once()
    ensures { GlobsReadOnce }
{}
