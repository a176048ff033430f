//! The lines that a status stands on.

ghost use Rattle.std.specs.Prelude.{◌≡◌, ◌∷◌, [], MatchOption, filter};
ghost use Rattle.std.specs.List.{filter_map};
ghost use Rattle.guppy_package_parts.specs.Lines.{line_at};
ghost use Rattle.guppy_package_parts.specs.LineChoices.{takes};
ghost use Rattle.guppy_package_parts.specs.LineViews.{is_line_of, lines_of};

use crate::texts::contains_text;
use workspace_record::{LineKind, LineRecord, LinkRecord};

/// Which of the lines of one kind, all required or all optional.
#[derive(Clone, Copy, Debug)]
pub(crate) enum Part<'g> {
    All,
    AskingDefaults,
    NotAskingDefaults,
    Listing(&'g str),
}

/// A test of lines.
#[derive(Clone, Copy, Debug)]
pub(crate) struct LineTest<'g> {
    pub(crate) kind: LineKind,
    pub(crate) optional: bool,
    pub(crate) part: Part<'g>,
}

impl LineTest<'_> {
    pub(crate) fn passes(&self, line: &LineRecord) -> bool
        ensures { result ≡ is_line_of self.now line.now }
    {
        let is_in_part = match self.part {
            Part::All => true,
            Part::AskingDefaults => line.default_features,
            Part::NotAskingDefaults => !line.default_features,
            Part::Listing(feature) => contains_text(&line.features, feature),
        };
        line.kind == self.kind && is_in_part && line.optional == self.optional
    }
}

/// The lines of one kind: those that are required, those that are optional, or both.
#[derive(Clone, Copy, Debug)]
pub struct LineChoice {
    pub kind: LineKind,
    pub required: bool,
    pub optional: bool,
}

impl LineChoice {
    /// Whether the line is one of these.
    pub fn takes(&self, line: &LineRecord) -> bool
        ensures answer { result ≡ takes self.now line.now }
    {
        line.kind == self.kind
            && if line.optional {
                self.optional
            } else {
                self.required
            }
    }
}

/// Lines of a record.
#[derive(Clone, Copy, Debug)]
pub(crate) enum Lines<'g> {
    /// Those that pass a test.
    Passing(&'g [LineRecord], LineTest<'g>),
    /// Those named by the place of their link, and by their place in it.
    Named(&'g [LinkRecord], &'g [(usize, usize)]),
    /// Of those named so, the ones that are chosen.
    Chosen(&'g [LinkRecord], &'g [(usize, usize)], LineChoice),
}

impl<'g> Lines<'g> {
    /// The first line and the others.
    pub(crate) fn split_first(self) -> Option<(&'g LineRecord, Lines<'g>)>
        ensures { MatchOption result (lines_of self.entry ≡ [])
            (λ p. lines_of self.entry ≡ p.0.now ∷ lines_of p.1) }
    {
        match self {
            Lines::Passing(lines, test) => {
                let (line, others) = first_passing(lines, test)?;
                Some((line, Lines::Passing(others, test)))
            }
            Lines::Named(links, places) => {
                let (line, others) = first_named(links, places)?;
                Some((line, Lines::Named(links, others)))
            }
            Lines::Chosen(links, places, choice) => {
                let (line, others) = first_chosen(links, places, choice)?;
                Some((line, Lines::Chosen(links, others, choice)))
            }
        }
    }
}

fn first_passing<'g>(
    lines: &'g [LineRecord],
    test: LineTest<'g>,
) -> Option<(&'g LineRecord, &'g [LineRecord])>
    ensures { MatchOption result (filter (is_line_of test.entry) lines.entry.now ≡ [])
        (λ p. filter (is_line_of test.entry) lines.entry.now
        ≡ p.0.now ∷ filter (is_line_of test.entry) p.1.now) }
{
    let mut left = lines;
    while let Some((line, others)) = left.split_first() {
        if test.passes(line) {
            return Some((line, others));
        }
        left = others;
    }
    None
}

fn first_chosen<'g>(
    links: &'g [LinkRecord],
    places: &'g [(usize, usize)],
    choice: LineChoice,
) -> Option<(&'g LineRecord, &'g [(usize, usize)])>
    ensures { MatchOption result (filter (takes choice)
        (filter_map (line_at links.entry.now) places.entry.now) ≡ [])
        (λ p. filter (takes choice) (filter_map (line_at links.entry.now) places.entry.now)
        ≡ p.0.now ∷ filter (takes choice) (filter_map (line_at links.entry.now) p.1.now)) }
{
    let mut left = places;
    while let Some((line, others)) = first_named(links, left) {
        if choice.takes(line) {
            return Some((line, others));
        }
        left = others;
    }
    None
}

fn first_named<'g>(
    links: &'g [LinkRecord],
    places: &'g [(usize, usize)],
) -> Option<(&'g LineRecord, &'g [(usize, usize)])>
    ensures { MatchOption result (filter_map (line_at links.entry.now) places.entry.now ≡ [])
        (λ p. filter_map (line_at links.entry.now) places.entry.now
        ≡ p.0.now ∷ filter_map (line_at links.entry.now) p.1.now) }
{
    let mut left = places;
    while let Some((place, others)) = left.split_first() {
        let (link, line) = *place;
        if let Some(line) = links.get(link).and_then(|link| link.lines.get(line)) {
            return Some((line, others));
        }
        left = others;
    }
    None
}
