//! What one section requires of a dependency.

ghost use Rattle.std.specs.Prelude.{◌≡◌, ◌&&◌, MatchOption, [], false, filter, length, nat_lt};
ghost use Rattle.std.specs.List.{list_any};
ghost use Rattle.std.specs.Str.{bytes_eq};
ghost use Rattle.list_facts.specs.Texts.{texts};
ghost use Rattle.guppy_package_parts.specs.DependencyKinds.{line_kind_of};
ghost use Rattle.guppy_package_parts.specs.Lines.{asks_defaults, asks_no_defaults, is_kind, lists};
ghost use Rattle.guppy_package_parts.specs.LineViews.{is_in_part};
ghost use Rattle.guppy_package_parts.specs.NameViews.{features_left};
ghost use Rattle.guppy_package_parts.specs.Names.{features_of};
ghost use Rattle.guppy_package_parts.specs.PlatformViews.{spec_view};
ghost use Rattle.guppy_package_parts.specs.RequirementViews.{HasStatus, optional_value, requirement_lines, required_value};
ghost use Rattle.guppy_package_parts.specs.Statuses.{is_never, kept_specs, status_of};
ghost use Rattle.guppy_package_parts.specs.StatusViews.{status_view};
ghost use Rattle.guppy_package_parts.specs.Ternaries.{greater};

use crate::dependency_kind::DependencyKind;
use crate::enabled_ternary::EnabledTernary;
use crate::lines::{LineTest, Lines, Part};
use crate::platform::{Platform, PlatformSpec};
use crate::platform_status::PlatformStatus;
use crate::requirement_features::RequirementFeatures;
use workspace_record::{LineKind, LineRecord, LinkRecord};

/// What a package requires of a dependency, in one section of its manifest.
#[derive(Clone, Copy, Debug)]
pub struct DependencyReq<'g> {
    lines: &'g [LineRecord],
    kind: LineKind,
}

/// On which platforms something is required, and on which it is there if it is switched on.
#[derive(Clone, Copy, Debug)]
pub struct EnabledStatus<'g> {
    required: PlatformStatus<'g>,
    optional: PlatformStatus<'g>,
}

impl<'g> EnabledStatus<'g> {
    /// Whether it is neither required nor optional on any platform.
    pub fn is_never(&self) -> bool
        ensures { result ≡ is_never (required_value self.now)
            && is_never (optional_value self.now) }
    {
        self.required.is_never() && self.optional.is_never()
    }

    /// Whether it is required, on the platforms that are asked about.
    pub fn required_on<P: Platform>(&self, platform_spec: &PlatformSpec<P>) -> EnabledTernary
        ensures { result ≡ status_of (spec_view P.answers platform_spec.now)
            (kept_specs (required_value self.now)) }
    {
        self.required.enabled_on(platform_spec)
    }

    /// Whether it is required or optional, on the platforms that are asked about.
    pub fn enabled_on<P: Platform>(&self, platform_spec: &PlatformSpec<P>) -> EnabledTernary
        ensures { let asked = spec_view P.answers platform_spec.now in result
            ≡ greater (status_of asked (kept_specs (required_value self.now)))
            (status_of asked (kept_specs (optional_value self.now))) }
    {
        self.required.enabled_on(platform_spec) | self.optional.enabled_on(platform_spec)
    }

    /// On which platforms it is required.
    pub fn required_status(&self) -> PlatformStatus<'g>
        ensures { status_view result ≡ required_value self.now }
    {
        self.required
    }

    /// On which platforms it is optional.
    pub fn optional_status(&self) -> PlatformStatus<'g>
        ensures { status_view result ≡ optional_value self.now }
    {
        self.optional
    }
}

impl<'g> DependencyReq<'g> {
    /// What the lines of this kind say in a link's row.
    pub fn of(link: &'g LinkRecord, kind: DependencyKind) -> DependencyReq<'g>
        ensures { requirement_lines result
            ≡ filter (is_kind (line_kind_of kind)) link.entry.now.lines }
    {
        DependencyReq {
            lines: link.lines.as_slice(),
            kind: kind.line_kind(),
        }
    }

    /// Whether there is a line of the kind.
    pub fn is_present(&self) -> bool
        ensures { result ≡ nat_lt 0 (length (requirement_lines self.now)) }
    {
        self.lines.iter().any(|line| line.kind == self.kind)
    }

    /// Where the dependency is on.
    pub fn status(&self) -> EnabledStatus<'g>
        ensures { HasStatus (requirement_lines self.now) result }
    {
        self.status_of_part(Part::All)
    }

    /// Where the dependency's default features are on.
    pub fn default_features(&self) -> EnabledStatus<'g>
        ensures { HasStatus (filter asks_defaults (requirement_lines self.now)) result }
    {
        self.status_of_part(Part::AskingDefaults)
    }

    /// Where the dependency is on without its default features.
    pub fn no_default_features(&self) -> EnabledStatus<'g>
        ensures { HasStatus (filter asks_no_defaults (requirement_lines self.now)) result }
    {
        self.status_of_part(Part::NotAskingDefaults)
    }

    // It keeps the row's own text, so that the caller's may be shorter-lived; where no line lists the feature both
    // statuses are Never.
    /// Where a feature of the dependency is on.
    pub fn feature_status(&self, feature: &str) -> EnabledStatus<'g>
        ensures { HasStatus (filter (lists feature.now) (requirement_lines self.now)) result }
    {
        match own_text(self.lines, feature) {
            Some(feature) => self.status_of_part(Part::Listing(feature)),
            None => EnabledStatus {
                required: PlatformStatus::Never,
                optional: PlatformStatus::Never,
            },
        }
    }

    // It takes no memory: it looks for the lowest name above the last one each time. Lines of one link are few.
    /// The features that are asked for: the names in required lines ascending, each once, and then
    /// those in optional lines likewise.
    pub fn features(&self) -> RequirementFeatures<'g>
        ensures { features_left result ≡ features_of (requirement_lines self.now) }
    {
        RequirementFeatures::of(self.lines, self.kind)
    }

    fn status_of_part(&self, part: Part<'g>) -> EnabledStatus<'g>
        ensures { HasStatus (filter (is_in_part part.entry) (requirement_lines self.now)) result }
    {
        let (lines, kind) = (self.lines, self.kind);
        EnabledStatus {
            required: PlatformStatus::of(Lines::Passing(
                lines,
                LineTest {
                    kind,
                    part,
                    optional: false,
                },
            )),
            optional: PlatformStatus::of(Lines::Passing(
                lines,
                LineTest {
                    kind,
                    part,
                    optional: true,
                },
            )),
        }
    }
}

// A feature's name as a line lists it: a status keeps this text, and not the caller's.
fn own_text<'g>(lines: &'g [LineRecord], feature: &str) -> Option<&'g str>
    ensures { MatchOption result (filter (lists feature.now) lines.entry.now ≡ [])
        (λ t. t.now ≡ feature.now) }
{
    for line in lines {
        if let Some(own) = text_among(&line.features, feature) {
            return Some(own);
        }
    }
    None
}

fn text_among<'g>(names: &'g [String], text: &str) -> Option<&'g str>
    ensures { MatchOption result (list_any (bytes_eq text.now) (texts names.entry.now) ≡ false)
        (λ t. t.now ≡ text.now) }
{
    for name in names {
        if text == name.as_str() {
            return Some(name.as_str());
        }
    }
    None
}
