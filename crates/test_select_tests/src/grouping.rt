//! The chosen tests by binary.

ghost use Rattle.std.specs.Prelude.{List, [], ◌∷◌, ◌++◌, ◌↔◌, IfOk, IsTrue, OnOk, map, string_bytes};
ghost use Rattle.workspace_record.specs.Records.{Text};
ghost use Rattle.test_select_tests.specs.Grouping.{IsByBinary, IsOfLast, group_of};

use crate::selection::Selection;
use std::alloc::{AllocError, Global};

/// The chosen tests by binary: each id of which a test is chosen, ascending, with its chosen tests,
/// ascending. Ids and names are moved, and none is copied.
pub fn by_binary(
    alloc: Global,
    selection: Selection,
) -> Result<Vec<(String, Vec<String>)>, AllocError>
    ensures groups { IfOk result (λ v. IsByBinary selection.chosen (map group_of v.items)) }
{
    let (chosen, _) = selection.into_lists();
    let mut groups = Vec::new(alloc);
    for (id, test) in chosen {
        push_test(alloc, &mut groups, id, test)?;
    }
    Ok(groups)
}

/// Adds a test to the last group, if that is of its binary, and else in a group of its own.
fn push_test(
    alloc: Global,
    groups: &mut Vec<(String, Vec<String>)>,
    id: String,
    test: String,
) -> Result<(), AllocError>
    ensures { (pairs : List (Text × Text)) → IsByBinary pairs (map group_of groups.old.items)
        → OnOk result (IsByBinary (pairs ++ (string_bytes id, string_bytes test) ∷ [])
        (map group_of groups.new.items)) }
{
    if is_of_last(groups, &id) {
        let last = groups.len() - 1;
        groups[last].1.push(test)?;
    } else {
        groups.push((id, vec![in alloc; test]?))?;
    }
    Ok(())
}

/// Whether the last group is of the binary with this id.
fn is_of_last(groups: &[(String, Vec<String>)], id: &String) -> bool
    ensures { IsTrue result ↔ IsOfLast (map group_of groups.now) (string_bytes id.now) }
{
    match groups.last() {
        Some(last) => last.0 == *id,
        None => false,
    }
}
