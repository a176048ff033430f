//! Platforms, and what they know.

ghost use Rattle.std.specs.Prelude.{◌≡◌, Bool, IfOk, Option, Some, map};
ghost use Rattle.workspace_record.specs.Records.{Text};
ghost use Rattle.guppy_package_parts.specs.Statuses.{spec_answer};
ghost use Rattle.guppy_package_parts.specs.PlatformViews.{AsksOfClones, spec_view};
ghost use Rattle.guppy_package_parts.specs.Ternaries.{greatest, ternary_of};

use crate::enabled_ternary::EnabledTernary;
use std::alloc::{AllocError, Global};

/// A platform that knows of some specs whether they name it.
pub trait Platform {
    /// What each platform answers to each spec.
    ghost answers: { Self → Text → Option Bool };

    /// Whether the spec names the platform, if that is known.
    fn answer(&self, spec: &str) -> Option<bool>
        ensures { result ≡ answers self.now spec.now };
}

/// The platforms that a question is about.
#[derive(Debug, Drop)]
pub enum PlatformSpec<P> {
    /// None: what counts is what is on everywhere.
    Always,
    /// Any that there may be.
    Any,
    /// At least one of these.
    Platforms(Vec<P>),
}

impl<P> PlatformSpec<P> {
    /// At least one of these platforms.
    pub fn platforms(platforms: Vec<P>) -> PlatformSpec<P>
        ensures { result ≡ PlatformSpec.Platforms platforms }
    {
        PlatformSpec::Platforms(platforms)
    }
}

impl<P: Clone> PlatformSpec<P> {
    /// The same question about clones of the same platforms, in memory of its own.
    pub fn copy(&self, alloc: Global) -> Result<PlatformSpec<P>, AllocError>
        ensures clones { IfOk result (AsksOfClones P.is_clone self.now) }
    {
        match self {
            PlatformSpec::Always => Ok(PlatformSpec::Always),
            PlatformSpec::Any => Ok(PlatformSpec::Any),
            PlatformSpec::Platforms(platforms) => {
                let clones = Vec::from_clones(alloc, platforms.as_slice())?;
                Ok(PlatformSpec::Platforms(clones))
            }
        }
    }
}

impl<P: Platform> PlatformSpec<P> {
    /// Whether what has this spec is on.
    pub(crate) fn answer_to(&self, spec: &str) -> EnabledTernary
        ensures { result ≡ spec_answer (spec_view P.answers self.now) (Some spec.now) }
    {
        match self {
            PlatformSpec::Always => EnabledTernary::Disabled,
            PlatformSpec::Any => EnabledTernary::Enabled,
            PlatformSpec::Platforms(platforms) => greatest_answer(platforms, spec),
        }
    }
}

fn greatest_answer<P: Platform>(platforms: &[P], spec: &str) -> EnabledTernary
    ensures { result ≡ greatest (map (λ p. ternary_of (P.answers p spec.now)) platforms.now) }
{
    let mut greatest = EnabledTernary::Disabled;
    for platform in platforms {
        greatest = greatest | EnabledTernary::of(platform.answer(spec));
    }
    greatest
}
