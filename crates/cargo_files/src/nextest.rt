//! What `cargo nextest list --message-format json` prints.

ghost use Rattle.std.specs.Prelude.{◌≡◌, IfOk, map, option_map, string_bytes};
ghost use Rattle.serde_json.specs.View.{members_view, view};
ghost use Rattle.cargo_files.specs.Nextest.{member_names, suite_tests};

use serde_json::{Map, Value};
use std::alloc::{AllocError, Global};

/// The names of the tests that nextest lists of the binary with an id, in its order; none where it lists
/// no such binary. Tests that nextest would leave out, as ignored ones, are among them.
pub fn nextest_tests(
    alloc: Global,
    list: &Value,
    id: &str,
) -> Result<Option<Vec<String>>, AllocError>
    ensures tests { IfOk result (λ o. option_map (λ v. map string_bytes v.items) o
        ≡ suite_tests (view list.now) id.now) }
{
    let suites = list.get("rust-suites");
    let testcases = suites.and_then(|suites| suites.get(id)?.get("testcases"));
    match testcases.and_then(Value::as_object) {
        Some(members) => Ok(Some(names_of(alloc, members)?)),
        None => Ok(None),
    }
}

fn names_of(alloc: Global, members: &Map<String, Value>) -> Result<Vec<String>, AllocError>
    ensures { IfOk result (λ v. map string_bytes v.items
        ≡ member_names (members_view members.now.entries)) }
{
    let mut names = Vec::new(alloc);
    for (name, _) in members.iter() {
        names.push(String::from_str(alloc, name.as_str())?)?;
    }
    Ok(names)
}
