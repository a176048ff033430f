//! The numbers of the rules that are still to be looked at.

ghost use Rattle.std.specs.Prelude.{◌≡◌, ◌<◌, ◌∷◌, [], ℕ, true, All, OnOk, IfSome, IfNone};
ghost use Rattle.feature_account_making.specs.Waiting.{waiting_at, size, IsEach, IsReady, IsTakenLeast, IsWith};

use feature_account::FeatureRef;
use indexmap::IndexMap;
use std::alloc::{AllocError, Global};
use std::collections::BTreeSet;

// A set of all numbers would say the same, and half of the search went into it.
/// Those from `next` on, none of which was ever looked at, and those before it that were woken since.
#[derive(Drop)]
pub(crate) struct RuleQueue {
    pub(crate) next: usize,
    pub(crate) count: usize,
    pub(crate) woken: BTreeSet<usize>,
}

impl RuleQueue {
    /// The numbers of this many rules.
    pub(crate) fn each(alloc: Global, count: usize) -> RuleQueue
        ensures { IsEach count result }
    {
        RuleQueue {
            next: 0,
            count,
            woken: BTreeSet::new(alloc),
        }
    }

    /// Takes out the least number, if there is one.
    pub(crate) fn take_least(&mut self) -> Option<usize>
        requires ready { IsReady self.old }
        ensures least { IfSome result (IsTakenLeast self.old self.new) }
        ensures none { IfNone result (size self.old ≡ 0) }
    {
        match self.woken.pop_first() {
            Some(number) => Some(number),
            None if self.next < self.count => {
                let number = self.next;
                self.next = number + 1;
                Some(number)
            }
            None => None,
        }
    }

    /// Has the rules that wait for the feature looked at again.
    pub(crate) fn wake<'r, 'a>(
        &mut self,
        waiting: &IndexMap<&'r FeatureRef<'a>, Vec<usize>>,
        feature: &'r FeatureRef<'a>,
    ) -> Result<(), AllocError>
        requires ready { IsReady self.old }
        requires known { All (λ n. n < self.old.count) (waiting_at waiting.now feature.now) }
        ensures { OnOk result (IsWith self.old (waiting_at waiting.now feature.entry.now)
            self.new) }
    {
        match waiting.get(&feature) {
            Some(numbers) => self.insert_each(numbers),
            None => Ok(()),
        }
    }

    fn insert_each(&mut self, numbers: &[usize]) -> Result<(), AllocError>
        requires ready { IsReady self.old }
        requires known { All (λ n. n < self.old.count) numbers.now }
        ensures { OnOk result (IsWith self.old numbers.now self.new) }
    {
        for number in numbers {
            self.insert(*number)?;
        }
        Ok(())
    }

    /// Has the rule with this number looked at again, or for the first time, as it would be anyway.
    fn insert(&mut self, number: usize) -> Result<(), AllocError>
        requires ready { IsReady self.old }
        requires known { number < self.old.count }
        ensures { OnOk result (IsWith self.old (number ∷ []) self.new) }
    {
        if number < self.next {
            self.woken.insert(number)?;
        }
        Ok(())
    }
}
