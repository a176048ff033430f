//! What the parts of a filter let be known of it.

ghost use Rattle.std.specs.Prelude.{◌≡◌, Bool, Option};
ghost use Rattle.nextest_filter_evaluation.specs.Kleene.{known_at, known_both, known_either, known_not};

use crate::kleene;

/// What is known of a filter, by what is known of a part of it.
#[derive(Clone, Copy)]
pub(crate) struct KnownByPart {
    if_true: Option<bool>,
    if_false: Option<bool>,
    if_unknown: Option<bool>,
}

impl KnownByPart {
    /// Where the part is the whole filter.
    pub(crate) fn whole() -> KnownByPart
        ensures { (o : Option Bool) → known_at result o ≡ o }
    {
        KnownByPart {
            if_true: Some(true),
            if_false: Some(false),
            if_unknown: None,
        }
    }

    /// What is known of the filter, where this is known of the part.
    pub(crate) fn at(self, part: Option<bool>) -> Option<bool>
        ensures { result ≡ known_at self part }
    {
        match part {
            Some(true) => self.if_true,
            Some(false) => self.if_false,
            None => self.if_unknown,
        }
    }

    /// By what is known of the part's opposite, where the part is a negation.
    pub(crate) fn through_not(self) -> KnownByPart
        ensures { (o : Option Bool) → known_at result o ≡ known_at self (known_not o) }
    {
        KnownByPart {
            if_true: self.at(kleene::known_not(Some(true))),
            if_false: self.at(kleene::known_not(Some(false))),
            if_unknown: self.at(kleene::known_not(None)),
        }
    }

    /// By what is known of the first of two, where the part holds if one does, and this is known of the
    /// second.
    pub(crate) fn through_either(self, second: Option<bool>) -> KnownByPart
        ensures { (o : Option Bool) → known_at result o ≡ known_at self (known_either o second) }
    {
        KnownByPart {
            if_true: self.at(kleene::known_either(Some(true), second)),
            if_false: self.at(kleene::known_either(Some(false), second)),
            if_unknown: self.at(kleene::known_either(None, second)),
        }
    }

    /// The same, where the part holds if both do.
    pub(crate) fn through_both(self, second: Option<bool>) -> KnownByPart
        ensures { (o : Option Bool) → known_at result o ≡ known_at self (known_both o second) }
    {
        KnownByPart {
            if_true: self.at(kleene::known_both(Some(true), second)),
            if_false: self.at(kleene::known_both(Some(false), second)),
            if_unknown: self.at(kleene::known_both(None, second)),
        }
    }
}
