//! Choices of features.

ghost use Rattle.std.specs.Prelude.{◌≡◌, IfOk, Option, option_copied};
ghost use Rattle.workspace_record.specs.Tables.{answer, SameTable};

use crate::feature::Feature;
use crate::kinds::Standard;
use crate::texts::copy_each;
use indexmap::IndexMap;
use std::alloc::{AllocError, Global};
use std::marker::Model;

/// The features that are asked for: the standard ones of each workspace package, and extra ones.
#[derive(Debug, Drop)]
pub struct FeatureChoice {
    pub standard: Standard,
    pub extras: Vec<Feature>,
}

impl Model for FeatureChoice {
    ghost use Rattle.workspace_record.specs.Choices.{Choice};

    ghost Value = { Choice };

    ghost view = { λ c. record { standard = c.standard; extras = c.extras.items } };
}

impl PartialEq for FeatureChoice {
    ghost use Rattle.workspace_record.specs.Choices.{choice_eq, choices_decide};
    ghost use Rattle.workspace_record.specs.Equality.{equivalence};
    ghost use Rattle.std.specs.Cmp.{partial_equiv_from_equiv};

    ghost eq = { choice_eq };

    ghost laws = { partial_equiv_from_equiv (equivalence choices_decide) };

    fn eq(&self, other: &FeatureChoice) -> bool {
        self.standard == other.standard && self.extras == other.extras
    }
}

impl Eq for FeatureChoice {
    ghost use Rattle.workspace_record.specs.Choices.{choices_decide};
    ghost use Rattle.workspace_record.specs.Equality.{equivalence};

    ghost laws = { equivalence choices_decide };
}

impl FeatureChoice {
    /// An equal value in memory of its own.
    pub fn copy(&self, alloc: Global) -> Result<FeatureChoice, AllocError>
        ensures { IfOk result (λ c. c ≡ self.now) }
    {
        let standard = self.standard;
        let extras = copy_each(alloc, &self.extras, |feature| feature.copy(alloc))?;
        Ok(FeatureChoice { standard, extras })
    }
}

// Answers are compared as `IndexMap` does, without regard to their order; a copy keeps the order too.
/// The answers that are known of one platform: whether it is the one that a spec names. A spec
/// without an answer counts as `unknown_counts` says.
#[derive(Debug, Drop, PartialEq, Eq)]
pub struct PlatformTable {
    pub answers: IndexMap<String, bool>,
    pub unknown_counts: bool,
}

impl PlatformTable {
    /// The answer to a spec, if there is one.
    pub fn answer(&self, spec: &str) -> Option<bool>
        ensures { result ≡ answer self.now spec.now }
    {
        self.answers.get(spec).copied()
    }

    /// An equal table in memory of its own.
    pub fn copy(&self, alloc: Global) -> Result<PlatformTable, AllocError>
        ensures { IfOk result (λ t. SameTable t self.now) }
    {
        let answers = self.answers.clone()?;
        let unknown_counts = self.unknown_counts;
        Ok(PlatformTable {
            answers,
            unknown_counts,
        })
    }
}
