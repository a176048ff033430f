//! Laws that hold of all leaves.

ghost use Rattle.nextest_filter_syntax.specs.LeafLaws.{LeavesReadOnce, PatternsOfOneTextMatchAlike};
ghost use Rattle.nextest_filter_syntax.specs.FilterLaws.{TextsReadAsOne};

/// From one place on, a leaf is read in one way alone.
pub fn leaves_read_once()
    ensures { LeavesReadOnce }
{}

/// Two patterns that were read in one text by the default options are found in the same names.
pub fn patterns_of_one_text_match_alike()
    ensures alike { PatternsOfOneTextMatchAlike }
{}

/// No text reads as two trees.
pub fn texts_read_as_one()
    ensures { TextsReadAsOne }
{}
