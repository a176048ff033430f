//! The iterator over features that lines ask for.

ghost use Rattle.std.specs.Prelude.{◌≡◌, ◌∷◌, [], MatchOption, None, filter, option_map};
ghost use Rattle.list_facts.specs.Texts.{texts};
ghost use Rattle.guppy_package_parts.specs.LineViews.{is_in_half, is_line_of};
ghost use Rattle.guppy_package_parts.specs.Lines.{lines_of_kind};
ghost use Rattle.guppy_package_parts.specs.Names.{each_once, features_of, is_above, listed, lower_above, lowest_from};
ghost use Rattle.guppy_package_parts.specs.NameViews.{features_left, names_left};

use crate::lines::{LineTest, Part};
use workspace_record::{LineKind, LineRecord};

/// The names of features that lines list: first those of required lines in ascending order, each
/// once, then those of optional ones likewise.
#[derive(Debug, Drop)]
pub struct RequirementFeatures<'g> {
    required: Names<'g>,
    optional: Names<'g>,
}

// The names that the lines which pass a test list, in ascending order, after the last one.
#[derive(Clone, Copy, Debug)]
pub(crate) struct Names<'g> {
    lines: &'g [LineRecord],
    test: LineTest<'g>,
    last: Option<&'g str>,
}

impl<'g> RequirementFeatures<'g> {
    /// The features that the lines of a kind list.
    pub(crate) fn of(lines: &'g [LineRecord], kind: LineKind) -> RequirementFeatures<'g>
        ensures { features_left result ≡ features_of (lines_of_kind kind lines.entry.now) }
    {
        RequirementFeatures {
            required: Names::of(lines, kind, false),
            optional: Names::of(lines, kind, true),
        }
    }
}

impl<'g> Iterator for RequirementFeatures<'g> {
    type Item = &'g str;

    ghost use Rattle.std.specs.Iterator.{YieldsFirstBy, item_count};
    ghost use Rattle.guppy_package_parts.specs.NameViews.{features_left};

    ghost next_gives = { YieldsFirstBy (λ name. name.now) features_left };

    ghost remaining = { item_count features_left };

    fn next(&mut self) -> Option<&'g str> {
        if let Some((name, others)) = self.required.split_first() {
            self.required = others;
            return Some(name);
        }
        let (name, others) = self.optional.split_first()?;
        self.optional = others;
        Some(name)
    }
}

impl<'g> Names<'g> {
    fn of(lines: &'g [LineRecord], kind: LineKind, optional: bool) -> Names<'g>
        ensures { names_left result ≡ each_once
            (listed (filter (is_in_half optional) (lines_of_kind kind lines.entry.now))) }
    {
        let test = LineTest {
            kind,
            optional,
            part: Part::All,
        };
        Names {
            lines,
            test,
            last: None,
        }
    }

    // The first name and the others.
    fn split_first(self) -> Option<(&'g str, Names<'g>)>
        ensures { MatchOption result (names_left self.entry ≡ [])
            (λ p. names_left self.entry ≡ p.0.now ∷ names_left p.1) }
    {
        let Names { lines, test, last } = self;
        match lowest_above(lines, test, last) {
            None => None,
            Some(name) => {
                let others = Names {
                    lines,
                    test,
                    last: Some(name),
                };
                Some((name, others))
            }
        }
    }
}

fn lowest_above<'g>(
    lines: &'g [LineRecord],
    test: LineTest<'g>,
    last: Option<&'g str>,
) -> Option<&'g str>
    ensures { option_map (λ t. t.now) result
        ≡ lowest_from None (filter (is_above (option_map (λ t. t.now) last.entry))
        (listed (filter (is_line_of test.entry) lines.entry.now))) }
{
    let mut lowest: Option<&'g str> = None;
    for line in lines {
        if test.passes(line) {
            lowest = lowest_of(&line.features, last, lowest);
        }
    }
    lowest
}

fn lowest_of<'g>(
    names: &'g [String],
    last: Option<&'g str>,
    least: Option<&'g str>,
) -> Option<&'g str>
    ensures { option_map (λ t. t.now) result
        ≡ lowest_from (option_map (λ t. t.now) least.entry)
        (filter (is_above (option_map (λ t. t.now) last.entry)) (texts names.entry.now)) }
{
    let mut lowest = least;
    for name in names {
        lowest = lower_above(last, lowest, name.as_str());
    }
    lowest
}

// The lesser of two names, where the second is above the last one.
fn lower_above<'g>(last: Option<&'g str>, least: Option<&'g str>, name: &'g str) -> Option<&'g str>
    ensures { option_map (λ t. t.now) result
        ≡ lower_above (option_map (λ t. t.now) last.entry) (option_map (λ t. t.now) least.entry)
        name.entry.now }
{
    match (last, least) {
        (Some(last), _) if !(last < name) => least,
        (_, Some(least)) if !(name < least) => Some(least),
        _ => Some(name),
    }
}
