//! The rule on the targets of a package.

ghost use Rattle.std.specs.Prelude.{◌≡◌, ◌++◌, IfOk, not, position, string_bytes};
ghost use Rattle.guppy_package_rules.specs.Rules.{target_key, has_distinct_targets};

use crate::distinct::is_distinct;
use std::alloc::{AllocError, Global};
use workspace_record::{PackageRecord, TargetKind};

/// The first package with two targets that may not stand beside each other.
pub(crate) fn first_repeated_target(
    alloc: Global,
    packages: &[PackageRecord],
) -> Result<Option<usize>, AllocError>
    ensures { IfOk result (λ place. place
        ≡ position (λ p. not (has_distinct_targets p)) packages.now) }
{
    for (place, row) in packages.iter().enumerate() {
        if !has_distinct_targets(alloc, row)? {
            return Ok(Some(place));
        }
    }
    Ok(None)
}

fn has_distinct_targets(alloc: Global, row: &PackageRecord) -> Result<bool, AllocError>
    ensures { IfOk result (λ answer. answer ≡ has_distinct_targets row.now) }
{
    let mut keys = Vec::new(alloc);
    for target in &row.targets {
        keys.push(target_key(alloc, target.kind, target.name.as_str())?)?;
    }
    is_distinct(alloc, &keys)
}

// A library and a procedural macro share a key, build scripts have one; others are told apart by kind and name.
fn target_key(alloc: Global, kind: TargetKind, name: &str) -> Result<String, AllocError>
    ensures { IfOk result (λ key. string_bytes key ≡ target_key kind name.now) }
{
    match kind {
        TargetKind::Lib | TargetKind::ProcMacro => String::from_str(alloc, "library"),
        TargetKind::Test => joined(alloc, "test/", name),
        TargetKind::Bench => joined(alloc, "bench/", name),
        TargetKind::Bin => joined(alloc, "bin/", name),
        TargetKind::Example => joined(alloc, "example/", name),
        TargetKind::BuildScript => String::from_str(alloc, "build-script"),
    }
}

fn joined(alloc: Global, front: &str, name: &str) -> Result<String, AllocError>
    ensures { IfOk result (λ text. string_bytes text ≡ front.now ++ name.now) }
{
    let mut text = String::from_str(alloc, front)?;
    text.push_str(name)?;
    Ok(text)
}
