//! The members of an object, lent by name.

ghost use Rattle.std.specs.Prelude.{◌≡◌, IfOk, option_map};
ghost use Rattle.serde_json.specs.Find.{as_object};
ghost use Rattle.record_files.specs.Trees.{seen, lent_members};

use json::Value;
use std::alloc::{AllocError, Global};
use std::collections::BTreeMap;

/// The values of an object, under their names.
pub(crate) type Lent<'v, 'a> = BTreeMap<&'a str, &'v Value<'a>>;

/// The members of the value, if it is an object; of those of one name the last counts.
pub(crate) fn members_of<'v, 'a>(
    alloc: Global,
    value: &'v Value<'a>,
) -> Result<Option<Lent<'v, 'a>>, AllocError>
    ensures { IfOk result
        (λ o. option_map (λ m. lent_members m.entries) o ≡ as_object (seen value.entry.now)) }
{
    let Value::Object(members) = value else {
        return Ok(None);
    };
    let mut found = BTreeMap::new(alloc);
    for member in members {
        drop(found.insert(member.0, &member.1)?);
    }
    Ok(Some(found))
}
