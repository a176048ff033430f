//! The members of objects.

ghost use Rattle.std.specs.Prelude.{◌≡◌, IfOk, map, string_bytes};
ghost use Rattle.serde_json.specs.Data.{Data, no_members, put};
ghost use Rattle.serde_json.specs.View.{members_view, view};
ghost use Rattle.record_writing.specs.Members.{value_of, members_data, put_all, texts_data};

use serde_json::{Map, Value, put};
use std::alloc::{AllocError, Global};

/// The value of a member.
#[derive(Clone, Copy)]
pub(crate) enum Member<'a> {
    Text(&'a str),
    OptionalText(&'a Option<String>),
    Texts(&'a [String]),
    OptionalTexts(&'a Option<Vec<String>>),
    Flag(bool),
}

/// A row that is written as an object.
pub(crate) trait Written {
    ghost object: { Self → Data };

    /// The row's value.
    fn written(&self, alloc: Global) -> Result<Value, AllocError>
        ensures { IfOk result (λ v. view v ≡ object self.now) };
}

/// The values of rows, in their order.
pub(crate) fn values_of<T: Written>(alloc: Global, rows: &[T]) -> Result<Vec<Value>, AllocError>
    ensures { IfOk result (λ v. map view v.items ≡ map T.object rows.now) }
{
    let mut values = Vec::with_capacity(alloc, rows.len())?;
    for row in rows {
        values.push(row.written(alloc)?)?;
    }
    Ok(values)
}

/// An object with these members.
pub(crate) fn object_of(
    alloc: Global,
    members: &[(&str, Member<'_>)],
) -> Result<Map<String, Value>, AllocError>
    ensures { IfOk result (λ m. members_view m.entries
        ≡ put_all (members_data members.now) no_members) }
{
    with_members(alloc, Map::new(alloc), members)
}

/// The object with these members put into it, one after another.
pub(crate) fn with_members(
    alloc: Global,
    mut object: Map<String, Value>,
    members: &[(&str, Member<'_>)],
) -> Result<Map<String, Value>, AllocError>
    ensures { IfOk result (λ m. members_view m.entries
        ≡ put_all (members_data members.now) (members_view object.entries)) }
{
    for (key, member) in members {
        put(&mut object, alloc, key, value_of(alloc, *member)?)?;
    }
    Ok(object)
}

/// The object with a value under a key.
pub(crate) fn with_member(
    alloc: Global,
    mut object: Map<String, Value>,
    key: &str,
    value: Value,
) -> Result<Map<String, Value>, AllocError>
    ensures { IfOk result (λ m. members_view m.entries
        ≡ put key.now (view value) (members_view object.entries)) }
{
    put(&mut object, alloc, key, value)?;
    Ok(object)
}

fn value_of(alloc: Global, member: Member<'_>) -> Result<Value, AllocError>
    ensures { IfOk result (λ v. view v ≡ value_of member.entry) }
{
    match member {
        Member::Text(text) => Value::try_from_str(alloc, text),
        Member::OptionalText(Some(text)) => Value::try_from_str(alloc, text.as_str()),
        Member::Texts(texts) => texts_value(alloc, texts),
        Member::OptionalTexts(Some(texts)) => texts_value(alloc, texts),
        Member::Flag(flag) => Ok(Value::Bool(flag)),
        Member::OptionalText(None) | Member::OptionalTexts(None) => Ok(Value::Null),
    }
}

pub(crate) fn texts_value(alloc: Global, texts: &[String]) -> Result<Value, AllocError>
    ensures { IfOk result (λ v. view v ≡ texts_data (map string_bytes texts.now)) }
{
    let mut values = Vec::with_capacity(alloc, texts.len())?;
    for text in texts {
        values.push(Value::try_from_str(alloc, text.as_str())?)?;
    }
    Ok(Value::Array(values))
}
