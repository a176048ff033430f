//! Groups, as rows tell of them.

ghost use Rattle.nextest_filter_evaluation.specs.Groups.{AreKnown};

use nextest_filtering::{GroupLookup, KnownGroups, NameMatcher, TestQuery};
use row_program::{Answers, Row};
use serde_json::Value;
use std::alloc::{AllocError, Global};

/// Each test belongs to this one group.
#[derive(Drop)]
pub(crate) struct OneGroup<'a> {
    pub(crate) alloc: Global,
    pub(crate) group: &'a str,
}

impl GroupLookup for OneGroup<'_> {
    ghost use Rattle.nextest_filter_evaluation.specs.NameTests.{Suits, is_pattern};
    ghost use Rattle.std.specs.Prelude.{◌≡◌, false};

    ghost member = { λ s _ m. Suits m s.group.now };

    ghost ready = { λ _ _ m. is_pattern m ≡ false };

    fn is_member_test(
        &self,
        _test: &TestQuery<'_>,
        matcher: &NameMatcher,
    ) -> Result<bool, AllocError> {
        nextest_filter_evaluation::suits(self.alloc, matcher, self.group)
    }
}

/// Tells whether a group is called what stands under `group_name`.
pub(crate) fn tell_groups(
    alloc: Global,
    row: Row<'_>,
    groups: &KnownGroups,
    answers: &mut Answers,
) -> Result<(), AllocError>
    requires known { AreKnown groups.now }
{
    if let Some(name) = row.get("group_name").and_then(Value::as_str) {
        let value = String::from_str(alloc, name)?;
        let implicit = false;
        let matcher = NameMatcher::Equal { value, implicit };
        answers.made("is_group", groups.matches(alloc, &matcher));
    }
    Ok(())
}
