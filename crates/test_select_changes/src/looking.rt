//! Which changed paths are looked at.

ghost use Rattle.std.specs.Prelude.{◌≡◌, ◌↔◌, Contains, IfOk, IsTrue, map};
ghost use Rattle.std.specs.Str.{chars};
ghost use Rattle.workspace_record.specs.Records.{Text};
ghost use Rattle.guppy_package_rules.specs.Paths.{parts};
ghost use Rattle.nextest_filter_matchers.specs.Globs.{Glob, GlobMatches};
ghost use Rattle.nextest_filter_matchers.specs.Matchers.{tokens_of};
ghost use Rattle.test_select_changes.specs.Changes.{IsLookedAt};
ghost use Rattle.test_select_changes.specs.PartViews.{lent_parts};

use nextest_filter_matchers::GenericGlob;
use std::alloc::{AllocError, Global};

/// Whether a path of these parts has one, and no glob takes it.
pub fn is_looked_at(
    alloc: Global,
    ignored: &[GenericGlob],
    path_parts: &[&str],
) -> Result<bool, AllocError>
    ensures { IfOk result (λ looked. (path : Text) → parts path ≡ lent_parts path_parts.now
        → IsTrue looked ↔ IsLookedAt (map (λ glob. tokens_of glob) ignored.now) path) }
{
    if path_parts.is_empty() {
        return Ok(false);
    }
    let path = path_parts.join(alloc, "/")?;
    Ok(!is_taken(ignored, path.as_str()))
}

/// Whether one of the globs matches a path.
fn is_taken(ignored: &[GenericGlob], path: &str) -> bool
    ensures { IsTrue result ↔ ((glob : Glob) × Contains (map (λ glob. tokens_of glob) ignored.now)
        glob × GlobMatches glob (chars path.now)) }
{
    for glob in ignored {
        if glob.is_match(path) {
            return true;
        }
    }
    false
}
