//! Laws that hold of all texts.

ghost use Rattle.nextest_filter_tokens.specs.Bytes.{BlanksReadOnce};
ghost use Rattle.nextest_filter_tokens.specs.Texts.{PatternsReadOnce, TextsReadOnce};

/// From one place on, blanks are read in one way alone.
pub fn blanks_read_once()
    ensures { BlanksReadOnce }
{}

/// From one place on, a text is read in one way alone.
pub fn texts_read_once()
    ensures { TextsReadOnce }
{}

/// From one place on, a pattern is read in one way alone.
pub fn patterns_read_once()
    ensures { PatternsReadOnce }
{}
