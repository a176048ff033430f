//! Rules whose texts are lent.

ghost use Rattle.std.specs.Prelude.{◌≡◌, IfOk};
ghost use Rattle.feature_account_rules.specs.LentPremises.{lent_premises_view};
ghost use Rattle.feature_account_rules.specs.RuleList.{both_imply, given, implies};

use crate::feature_ref::FeatureRef;
use crate::rule::{Premises, Rule};
use std::alloc::{AllocError, Global};
use std::marker::Model;

/// What has to be on for a lent rule to say something, as `Premises` has it.
#[derive(Debug, Drop)]
pub enum LentPremises<'a> {
    None,
    One(FeatureRef<'a>),
    Two(FeatureRef<'a>, FeatureRef<'a>),
}

impl<'a> LentPremises<'a> {
    fn of(premises: &'a Premises) -> LentPremises<'a>
        ensures { lent_premises_view result ≡ premises.entry.now }
    {
        match premises {
            Premises::None => LentPremises::None,
            Premises::One(a) => LentPremises::One(FeatureRef::of(a)),
            Premises::Two(a, b) => LentPremises::Two(FeatureRef::of(a), FeatureRef::of(b)),
        }
    }

    fn copy(&self, alloc: Global) -> Result<Premises, AllocError>
        ensures { IfOk result (λ p. p ≡ lent_premises_view self.now) }
    {
        match self {
            LentPremises::None => Ok(Premises::None),
            LentPremises::One(a) => Ok(Premises::One(a.copy(alloc)?)),
            LentPremises::Two(a, b) => {
                let first = a.copy(alloc)?;
                match b.copy(alloc) {
                    Ok(second) => Ok(Premises::Two(first, second)),
                    Err(refused) => {
                        drop(first);
                        Err(refused)
                    }
                }
            }
        }
    }
}

// A `Rule` owns its features' texts, as callers want to keep it; a list of them for a record would copy each
// id several times, which took an eighth of an account's time. So the rules are made here, lent, and `Rule`s
// are copies of them.
/// A rule of Cargo's features, whose texts are lent. In contracts it is the rule.
#[derive(Debug, Drop)]
pub struct LentRule<'a> {
    premises: LentPremises<'a>,
    conclusion: FeatureRef<'a>,
}

impl<'a> Model for LentRule<'a> {
    ghost use Rattle.feature_account_rules.specs.declared.rule.Rule.{Rule};
    ghost use Rattle.feature_account_rules.specs.LentPremises.{lent_premises_view};

    ghost Value = { Rule };

    ghost view = { λ r. record { premises = lent_premises_view r.premises; conclusion = r.conclusion } };
}

impl<'a> LentRule<'a> {
    /// The rule, which lends its texts.
    pub fn of(rule: &'a Rule) -> LentRule<'a>
        ensures lent { result ≡ rule.entry.now }
    {
        LentRule {
            premises: LentPremises::of(&rule.premises),
            conclusion: FeatureRef::of(&rule.conclusion),
        }
    }

    pub(crate) fn given(conclusion: FeatureRef<'a>) -> LentRule<'a>
        ensures { result ≡ given conclusion.entry }
    {
        let premises = LentPremises::None;
        LentRule {
            premises,
            conclusion,
        }
    }

    pub(crate) fn implies(premise: FeatureRef<'a>, conclusion: FeatureRef<'a>) -> LentRule<'a>
        ensures { result ≡ implies premise.entry conclusion.entry }
    {
        let premises = LentPremises::One(premise);
        LentRule {
            premises,
            conclusion,
        }
    }

    pub(crate) fn both_imply(
        first: FeatureRef<'a>,
        second: FeatureRef<'a>,
        conclusion: FeatureRef<'a>,
    ) -> LentRule<'a>
        ensures { result ≡ both_imply first.entry second.entry conclusion.entry }
    {
        let premises = LentPremises::Two(first, second);
        LentRule {
            premises,
            conclusion,
        }
    }

    /// What has to be on for the rule to say something.
    pub fn premises(&self) -> &LentPremises<'a>
        ensures premises { lent_premises_view result.now ≡ self.now.premises }
    {
        &self.premises
    }

    /// What is on where the premises are.
    pub fn conclusion(&self) -> &FeatureRef<'a>
        ensures conclusion { result.now ≡ self.now.conclusion }
    {
        &self.conclusion
    }

    /// An equal value in memory of its own.
    pub fn copy(&self, alloc: Global) -> Result<Rule, AllocError>
        ensures copied { IfOk result (λ r. r ≡ self.now) }
    {
        let premises = self.premises.copy(alloc)?;
        match self.conclusion.copy(alloc) {
            Ok(conclusion) => Ok(Rule {
                premises,
                conclusion,
            }),
            Err(refused) => {
                drop(premises);
                Err(refused)
            }
        }
    }
}

/// The rules, which lend their texts.
pub fn lend_rules<'a>(alloc: Global, rules: &'a [Rule]) -> Result<Vec<LentRule<'a>>, AllocError>
    ensures lent { IfOk result (λ v. v.items ≡ rules.entry.now) }
{
    let mut lent = Vec::with_capacity(alloc, rules.len())?;
    for rule in rules {
        lent.push(LentRule::of(rule))?;
    }
    Ok(lent)
}

/// A copy of each rule, in order.
pub(crate) fn copies_of(alloc: Global, rules: &[LentRule<'_>]) -> Result<Vec<Rule>, AllocError>
    ensures { IfOk result (λ v. v.items ≡ rules.now) }
{
    let mut copies = Vec::with_capacity(alloc, rules.len())?;
    for rule in rules {
        copies.push(rule.copy(alloc)?)?;
    }
    Ok(copies)
}
