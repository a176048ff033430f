//! Truth values with one that is unknown.

ghost use Rattle.std.specs.Prelude.{◌≡◌, ◌↔◌, IsTrue};
ghost use Rattle.guppy_package_parts.specs.Ternaries.{ternary_of};

use std::ops::{BitAnd, BitOr};

/// Whether something is on, where that may be unknown. In ascending order.
#[derive(Clone, Copy, Debug, PartialEq, Eq, PartialOrd, Ord, Hash)]
pub enum EnabledTernary {
    Disabled,
    Unknown,
    Enabled,
}

impl EnabledTernary {
    /// What an answer says of what it is about.
    pub(crate) fn of(answer: Option<bool>) -> EnabledTernary
        ensures { result ≡ ternary_of answer }
    {
        match answer {
            Some(true) => EnabledTernary::Enabled,
            Some(false) => EnabledTernary::Disabled,
            None => EnabledTernary::Unknown,
        }
    }

    /// Whether it is on or off, and not unknown.
    pub fn is_known(self) -> bool
        ensures { IsTrue result ↔ ¬ (self ≡ EnabledTernary.Unknown) }
    {
        self != EnabledTernary::Unknown
    }
}

impl BitAnd for EnabledTernary {
    type Output = EnabledTernary;

    ghost use Rattle.std.specs.Prelude.{◌≡◌};
    ghost use Rattle.guppy_package_parts.specs.Ternaries.{lesser};

    ghost bitand_gives = { λ a b c. c ≡ lesser a b };

    fn bitand(self, rhs: EnabledTernary) -> EnabledTernary {
        self.min(rhs)
    }
}

impl BitOr for EnabledTernary {
    type Output = EnabledTernary;

    ghost use Rattle.std.specs.Prelude.{◌≡◌};
    ghost use Rattle.guppy_package_parts.specs.Ternaries.{greater};

    ghost bitor_gives = { λ a b c. c ≡ greater a b };

    fn bitor(self, rhs: EnabledTernary) -> EnabledTernary {
        self.max(rhs)
    }
}
