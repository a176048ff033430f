//! The rule on the names of test groups.

ghost use Rattle.std.specs.Prelude.{◌≡◌, IfOk, map, position};
ghost use Rattle.std.specs.Str.{bytes_eq};
ghost use Rattle.guppy_package_rules.specs.Places.{first_repeat};
ghost use Rattle.guppy_package_rules.specs.Rules.{earlier};
ghost use Rattle.test_select_rules.specs.RecordRules.{is_reserved};

use guppy_package_rules::distinct::first_repeated_text;
use std::alloc::{AllocError, Global};
use workspace_record::GroupRecord;

/// The first group whose name begins with `@`, or is that of an earlier one.
pub(crate) fn first_bad_group(
    alloc: Global,
    groups: &[GroupRecord],
) -> Result<Option<usize>, AllocError>
    ensures { IfOk result (λ place. place
        ≡ earlier (position (λ g. is_reserved g.name) groups.now)
        (first_repeat bytes_eq (map (λ g. g.name) groups.now))) }
{
    let mut names: Vec<&str> = Vec::new(alloc);
    for group in groups {
        names.push(group.name.as_str())?;
    }
    let repeated = first_repeated_text(alloc, &names)?;
    let reserved = groups
        .iter()
        .position(|group| is_reserved(group.name.as_str()));
    Ok(earlier(reserved, repeated))
}

fn earlier(a: Option<usize>, b: Option<usize>) -> Option<usize>
    ensures { result ≡ earlier a b }
{
    match (a, b) {
        (Some(a), Some(b)) => Some(a.min(b)),
        (Some(a), None) => Some(a),
        (None, b) => b,
    }
}

fn is_reserved(name: &str) -> bool
    ensures { result ≡ is_reserved name.now }
{
    name.starts_with("@")
}
