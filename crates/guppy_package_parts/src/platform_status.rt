//! On which platforms something is on.

ghost use Rattle.std.specs.Prelude.{◌≡◌, ◌∷◌, [], All, MatchOption, filter, map, Some};
ghost use Rattle.std.specs.List.{list_any};
ghost use Rattle.std.specs.Option.{is_none};
ghost use Rattle.guppy_package_parts.specs.LineChoices.{takes};
ghost use Rattle.guppy_package_parts.specs.Lines.{IsLineAt, lines_at};
ghost use Rattle.guppy_package_parts.specs.LineViews.{lines_of};
ghost use Rattle.guppy_package_parts.specs.PlatformViews.{spec_view};
ghost use Rattle.guppy_package_parts.specs.Statuses.{IsStatusOf, given_specs, is_always, is_never, is_present, kept_specs, specs_of, status_from, status_of};
ghost use Rattle.guppy_package_parts.specs.StatusViews.{eval_specs, specs_left, status_view};

use crate::enabled_ternary::EnabledTernary;
use crate::lines::{LineChoice, Lines};
use crate::platform::{Platform, PlatformSpec};
use workspace_record::LinkRecord;

/// On which platforms something is on.
#[derive(Clone, Copy, Debug)]
pub enum PlatformStatus<'g> {
    /// On none.
    Never,
    /// On every platform.
    Always,
    /// On those that a spec names.
    PlatformDependent { eval: PlatformEval<'g> },
}

/// Specs, of which one at least has to name a platform.
#[derive(Clone, Copy, Debug)]
pub struct PlatformEval<'g> {
    lines: Lines<'g>,
}

impl<'g> PlatformStatus<'g> {
    /// The status of the lines that are named by the place of their link, and by their place in it. Each
    /// of them is there.
    pub fn over(links: &'g [LinkRecord], lines: &'g [(usize, usize)]) -> PlatformStatus<'g>
        requires { All (IsLineAt links.now) lines.now }
        ensures status { IsStatusOf (specs_of (lines_at links.entry.now lines.entry.now))
            (status_view result) }
    {
        PlatformStatus::of(Lines::Named(links, lines))
    }

    /// The status of the chosen ones of the lines that are named so. One that is not there is passed over.
    pub fn over_chosen(
        links: &'g [LinkRecord],
        lines: &'g [(usize, usize)],
        choice: LineChoice,
    ) -> PlatformStatus<'g>
        ensures status { IsStatusOf (specs_of (filter (takes choice)
            (lines_at links.entry.now lines.entry.now))) (status_view result) }
    {
        PlatformStatus::of(Lines::Chosen(links, lines, choice))
    }

    /// The status of these lines.
    pub(crate) fn of(lines: Lines<'g>) -> PlatformStatus<'g>
        ensures { IsStatusOf (specs_of (lines_of lines.entry)) (status_view result) }
    {
        if lines.split_first().is_none() {
            PlatformStatus::Never
        } else if has_line_without_spec(lines) {
            PlatformStatus::Always
        } else {
            PlatformStatus::PlatformDependent {
                eval: PlatformEval { lines },
            }
        }
    }

    /// Whether it is on nowhere.
    pub fn is_never(&self) -> bool
        ensures { result ≡ is_never (status_view self.now) }
    {
        matches!(self, PlatformStatus::Never)
    }

    /// Whether it is on everywhere.
    pub fn is_always(&self) -> bool
        ensures { result ≡ is_always (status_view self.now) }
    {
        matches!(self, PlatformStatus::Always)
    }

    /// Whether there is a platform on which it may be on.
    pub fn is_present(&self) -> bool
        ensures { result ≡ is_present (status_view self.now) }
    {
        !self.is_never()
    }

    /// Whether it is on, on the platforms that are asked about.
    pub fn enabled_on<P: Platform>(&self, platform_spec: &PlatformSpec<P>) -> EnabledTernary
        ensures { result ≡ status_of (spec_view P.answers platform_spec.now)
            (kept_specs (status_view self.now)) }
    {
        match self {
            PlatformStatus::Never => EnabledTernary::Disabled,
            PlatformStatus::Always => EnabledTernary::Enabled,
            PlatformStatus::PlatformDependent { eval } => eval.eval(platform_spec),
        }
    }
}

fn has_line_without_spec(lines: Lines<'_>) -> bool
    ensures { result ≡ list_any is_none (specs_of (lines_of lines.entry)) }
{
    let mut left = lines;
    while let Some((line, others)) = left.split_first() {
        if line.spec.is_none() {
            return true;
        }
        left = others;
    }
    false
}

impl<'g> PlatformEval<'g> {
    /// Whether a spec names one of the platforms that are asked about.
    pub fn eval<P: Platform>(&self, platform_spec: &PlatformSpec<P>) -> EnabledTernary
        ensures { result ≡ status_of (spec_view P.answers platform_spec.now)
            (map Some (eval_specs self.now)) }
    {
        let mut greatest = EnabledTernary::Disabled;
        let mut left = self.lines;
        while let Some((spec, others)) = first_spec(left) {
            greatest = greatest | platform_spec.answer_to(spec);
            left = others;
        }
        greatest
    }

    /// The specs, in the order of their lines.
    pub fn target_specs(&self) -> TargetSpecs<'g>
        ensures { specs_left result ≡ eval_specs self.now }
    {
        TargetSpecs { left: self.lines }
    }
}

// The first line's spec that there is, and the lines after it.
fn first_spec<'g>(lines: Lines<'g>) -> Option<(&'g str, Lines<'g>)>
    ensures { MatchOption result (given_specs (lines_of lines.entry) ≡ [])
        (λ p. given_specs (lines_of lines.entry) ≡ p.0.now ∷ given_specs (lines_of p.1)) }
{
    let mut left = lines;
    while let Some((line, others)) = left.split_first() {
        if let Some(spec) = &line.spec {
            return Some((spec.as_str(), others));
        }
        left = others;
    }
    None
}

/// Specs, in the order of their lines.
#[derive(Debug, Drop)]
pub struct TargetSpecs<'g> {
    left: Lines<'g>,
}

impl<'g> Iterator for TargetSpecs<'g> {
    type Item = &'g str;

    ghost use Rattle.std.specs.Iterator.{YieldsFirstBy, item_count};
    ghost use Rattle.guppy_package_parts.specs.StatusViews.{specs_left};

    ghost next_gives = { YieldsFirstBy (λ spec. spec.now) specs_left };

    ghost remaining = { item_count specs_left };

    fn next(&mut self) -> Option<&'g str> {
        let (spec, others) = first_spec(self.left)?;
        self.left = others;
        Some(spec)
    }
}
