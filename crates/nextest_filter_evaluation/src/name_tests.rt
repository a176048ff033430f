//! Whether matchers match names.

ghost use Rattle.std.specs.Prelude.{◌≡◌, ◌↔◌, false, IfOk, IsOk, IsTrue};
ghost use Rattle.nextest_filter_evaluation.specs.NameTests.{Suits, is_pattern, name_test};

use nextest_filter_matchers::NameMatcher;
use std::alloc::{AllocError, Global};

/// Whether the matcher matches the name. Memory is wanted for a pattern alone.
pub fn suits(alloc: Global, matcher: &NameMatcher, name: &str) -> Result<bool, AllocError>
    ensures matches { IfOk result (λ r. IsTrue r ↔ Suits (name_test matcher.now) name.now) }
    ensures answers { is_pattern (name_test matcher.now) ≡ false → IsOk result }
{
    matcher.is_match(alloc, name)
}
