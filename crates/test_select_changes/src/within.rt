//! Whether paths are told from the workspace's root.

ghost use Rattle.std.specs.Prelude.{◌≡◌, ◌↔◌, All, IsTrue, MatchOption, Some, map, slice_get, take};
ghost use Rattle.workspace_record.specs.Records.{Text};
ghost use Rattle.test_select_changes.specs.Changes.{IsWithin};

use guppy_package_rules::is_relative;

/// The place of the first path that is absolute or steps up.
pub fn first_outside(paths: &[&str]) -> Option<usize>
    ensures { let texts = map (λ path. path.now) paths.now in
        MatchOption result (All IsWithin texts) (λ place. All IsWithin (take place texts)
        × ((path : Text) × (slice_get texts place ≡ Some path) × (IsWithin path → ⊥))) }
{
    for (place, path) in paths.iter().enumerate() {
        if !is_within(path) {
            return Some(place);
        }
    }
    None
}

/// Whether a path is relative, and no part of it steps up.
fn is_within(path: &str) -> bool
    ensures { IsTrue result ↔ IsWithin path.now }
{
    is_relative(path) && !path.split('/').any(|part| part == "..")
}
