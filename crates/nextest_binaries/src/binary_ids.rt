//! The ids of test binaries.

ghost use Rattle.std.specs.Prelude.{◌≡◌, ◌||◌, ◌++◌, IfOk, OnOk, codes, string_bytes};
ghost use Rattle.std.specs.Str.{bytes_eq};
ghost use Rattle.nextest_binaries.specs.BinaryIds.{binary_id, target_text};

use std::alloc::{AllocError, Global};

/// The id that nextest gives the binary of a target: by the package for its library, by package and
/// name for a test, else by package, kind and name. Kinds are called as nextest calls them, such as
/// `proc-macro`.
pub fn binary_id(
    alloc: Global,
    package_name: &str,
    kind: &str,
    target_name: &str,
) -> Result<String, AllocError>
    ensures id { IfOk result (λ id. string_bytes id
        ≡ binary_id package_name.now kind.now target_name.now) }
{
    let mut id = String::from_str(alloc, package_name)?;
    if !is_library(kind) {
        id.push_str("::")?;
        push_target(&mut id, kind, target_name)?;
    }
    Ok(id)
}

fn is_library(kind: &str) -> bool
    ensures { result ≡ (bytes_eq kind.now (codes "lib") || bytes_eq kind.now (codes "proc-macro")) }
{
    kind == "lib" || kind == "proc-macro"
}

fn push_target(id: &mut String, kind: &str, name: &str) -> Result<(), AllocError>
    ensures { OnOk result (string_bytes id.new
        ≡ string_bytes id.old ++ target_text kind.now name.now) }
{
    if kind == "test" {
        return id.push_str(name);
    }
    id.push_str(kind)?;
    id.push_str("/")?;
    id.push_str(name)
}
