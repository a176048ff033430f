//! Groups of tests: what is known of their names, and who knows their members.

ghost use Rattle.std.specs.Prelude.{◌↔◌, IfOk, IsOk, IsTrue};
ghost use Rattle.list_facts.specs.Texts.{texts};
ghost use Rattle.nextest_filter_evaluation.specs.NameTests.{NameTest, SuitsOneOf, name_test};
ghost use Rattle.nextest_binaries.specs.Queries.{Test, test_of};
ghost use Rattle.nextest_filter_evaluation.specs.Groups.{AreKnown, known_groups};

use crate::name_tests::suits;
use nextest_binaries::TestQuery;
use nextest_filter_matchers::NameMatcher;
use std::alloc::{AllocError, Global};
use std::collections::BTreeSet;

/// Who knows to which groups tests belong.
pub trait GroupLookup {
    /// The test belongs to a group that the matcher matches.
    ghost member: { Self → Test → NameTest → Type 0 };

    /// An answer comes whatever memory there is.
    ghost ready: { Self → Test → NameTest → Type 0 };

    /// Whether the test belongs to a group that the matcher matches.
    fn is_member_test(
        &self,
        test: &TestQuery<'_>,
        matcher: &NameMatcher,
    ) -> Result<bool, AllocError>
        ensures member { IfOk result (λ r. IsTrue r
            ↔ member self.now (test_of test.now) (name_test matcher.now)) }
        ensures answers { ready self.now (test_of test.now) (name_test matcher.now) → IsOk result };
}

/// The names that test groups have, for filters that may name them.
#[derive(Debug, Drop)]
pub enum KnownGroups {
    /// Beside these, which a configuration names, there is always `@global`.
    Known { custom_groups: BTreeSet<String> },
    /// Groups are not known yet: filters of this sort may not name them.
    Unavailable,
}

impl KnownGroups {
    /// Whether the matcher matches the name of a group.
    pub fn matches(&self, alloc: Global, matcher: &NameMatcher) -> Result<bool, AllocError>
        requires { AreKnown self.now }
        ensures some { IfOk result (λ r. IsTrue r
            ↔ SuitsOneOf (name_test matcher.now) (known_groups self.now)) }
    {
        match self {
            KnownGroups::Known { custom_groups } => {
                if suits(alloc, matcher, "@global")? {
                    return Ok(true);
                }
                some_suits(alloc, matcher, custom_groups)
            }
            KnownGroups::Unavailable => Ok(false),
        }
    }
}

/// Whether the matcher matches one of the names.
fn some_suits(
    alloc: Global,
    matcher: &NameMatcher,
    names: &BTreeSet<String>,
) -> Result<bool, AllocError>
    ensures { IfOk result (λ r. IsTrue r
        ↔ SuitsOneOf (name_test matcher.now) (texts names.now.keys)) }
{
    for name in names {
        if suits(alloc, matcher, name.as_str())? {
            return Ok(true);
        }
    }
    Ok(false)
}
