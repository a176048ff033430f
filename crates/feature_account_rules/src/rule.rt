//! Rules of features: premises and a conclusion.

ghost use Rattle.std.specs.Prelude.{◌≡◌, IfOk};

use std::alloc::{AllocError, Global};
use workspace_record::Feature;

/// What has to be on for a rule to say something.
#[derive(Debug, Drop, PartialEq, Eq, Hash)]
pub enum Premises {
    None,
    One(Feature),
    Two(Feature, Feature),
}

impl Premises {
    /// An equal value in memory of its own.
    pub fn copy(&self, alloc: Global) -> Result<Premises, AllocError>
        ensures { IfOk result (λ p. p ≡ self.now) }
    {
        match self {
            Premises::None => Ok(Premises::None),
            Premises::One(a) => Ok(Premises::One(a.copy(alloc)?)),
            Premises::Two(a, b) => {
                let first = a.copy(alloc)?;
                match b.copy(alloc) {
                    Ok(second) => Ok(Premises::Two(first, second)),
                    Err(refused) => {
                        drop(first);
                        Err(refused)
                    }
                }
            }
        }
    }
}

/// A rule of Cargo's features: where the premises are on, the conclusion is.
#[derive(Debug, Drop, PartialEq, Eq, Hash)]
pub struct Rule {
    pub premises: Premises,
    pub conclusion: Feature,
}

impl Rule {
    /// An equal value in memory of its own.
    pub fn copy(&self, alloc: Global) -> Result<Rule, AllocError>
        ensures { IfOk result (λ r. r ≡ self.now) }
    {
        let premises = self.premises.copy(alloc)?;
        match self.conclusion.copy(alloc) {
            Ok(conclusion) => Ok(Rule {
                premises,
                conclusion,
            }),
            Err(refused) => {
                drop(premises);
                Err(refused)
            }
        }
    }
}
