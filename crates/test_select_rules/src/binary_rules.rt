//! The rules on the ids of the test binaries.

ghost use Rattle.std.specs.Prelude.{◌≡◌, IfOk, map, position};
ghost use Rattle.std.specs.List.{list_any};
ghost use Rattle.std.specs.Str.{bytes_eq};
ghost use Rattle.guppy_package_rules.specs.Places.{first_repeat};
ghost use Rattle.test_select_rules.specs.BinaryView.{binary_view};
ghost use Rattle.test_select_rules.specs.RecordRules.{is_blank};

use crate::binaries::TestBinary;
use guppy_package_rules::distinct::first_repeated_text;
use std::alloc::{AllocError, Global};

/// The first test binary whose id is that of an earlier one.
pub(crate) fn first_repeated_binary(
    alloc: Global,
    all: &[TestBinary<'_>],
) -> Result<Option<usize>, AllocError>
    ensures { IfOk result (λ place. place
        ≡ first_repeat bytes_eq (map (λ b. b.id) (map binary_view all.now))) }
{
    let mut ids: Vec<&str> = Vec::new(alloc);
    for binary in all {
        ids.push(binary.id.as_str())?;
    }
    first_repeated_text(alloc, &ids)
}

/// The first test binary whose id holds a space or a line feed.
pub(crate) fn first_blank_binary(all: &[TestBinary<'_>]) -> Option<usize>
    ensures { result ≡ position (λ b. list_any is_blank (binary_view b).id) all.now }
{
    all.iter().position(|binary| has_blank(binary.id.as_str()))
}

fn has_blank(id: &str) -> bool
    ensures { result ≡ list_any is_blank id.now }
{
    id.as_bytes().iter().any(|b| *b == b' ' || *b == b'\n')
}
