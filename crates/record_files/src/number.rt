//! The numbers of a tree, which are texts there.

ghost use Rattle.std.specs.Prelude.{◌≡◌, option_map, true, false};
ghost use Rattle.json.specs.Value.{value_view, items_view, members_view};
ghost use Rattle.serde_json.specs.Read.{number_of, number_from, float_of};
ghost use Rattle.serde_json.specs.View.{number_view};
ghost use Rattle.record_files.specs.Trees.{number_or, has_numbers, items_have_numbers, members_have_numbers};

use fast_float::Numeral;
use json::Value;
use serde_json::Number;

/// The number that a text of JSON writes, if it is in range.
pub(crate) fn number_of(text: &str) -> Option<Number>
    ensures { option_map number_view result ≡ number_of text.now }
{
    let bytes = text.as_bytes();
    if !bytes.is_empty() && bytes[0] == b'-' {
        negative(&Numeral::scan(&bytes[1..]))
    } else {
        unsigned(&Numeral::scan(bytes))
    }
}

/// The number that a text writes; in place of one that is out of range, which no file has, -1.
pub(crate) fn number_or(text: &str) -> Number
    ensures { number_view result ≡ number_or text.now }
{
    match number_of(text) {
        Some(number) => number,
        None => Number::from(-1i64),
    }
}

fn unsigned(numeral: &Numeral<'_>) -> Option<Number>
    ensures { option_map number_view result ≡ number_from false numeral.now }
{
    match numeral.to_u64() {
        Some(n) => Some(Number::from(n)),
        None => float(false, numeral),
    }
}

fn negative(numeral: &Numeral<'_>) -> Option<Number>
    ensures { option_map number_view result ≡ number_from true numeral.now }
{
    match numeral.to_i64(true) {
        Some(n) if n < 0 => Some(Number::from(n)),
        _ => float(true, numeral),
    }
}

fn float(is_negative: bool, numeral: &Numeral<'_>) -> Option<Number>
    ensures { option_map number_view result ≡ float_of is_negative numeral.now }
{
    Number::from_f64(numeral.to_float::<f64>(is_negative))
}

/// Whether each number of a value is in range.
#[cycle(numbers)]
pub(crate) fn has_numbers(value: &Value<'_>) -> bool
    ensures { result ≡ has_numbers (value_view value.now) }
{
    match value {
        Value::Null | Value::Bool(_) | Value::String(_) => true,
        Value::Number(text) => number_of(text).is_some(),
        Value::Array(values) => items_have_numbers(values),
        Value::Object(members) => members_have_numbers(members),
    }
}

#[cycle(numbers)]
fn items_have_numbers(values: &Vec<Value<'_>>) -> bool
    ensures { result ≡ items_have_numbers (items_view values.now.items) }
{
    for value in values {
        if holds_more(value) && !has_numbers(value) {
            return false;
        }
    }
    true
}

#[cycle(numbers)]
fn members_have_numbers(members: &Vec<(&str, Value<'_>)>) -> bool
    ensures { result ≡ members_have_numbers (members_view members.now.items) }
{
    for member in members {
        if holds_more(&member.1) && !has_numbers(&member.1) {
            return false;
        }
    }
    true
}

/// Whether the value is a number, or of a kind that holds other values: most of a record are texts.
fn holds_more(value: &Value<'_>) -> bool
    ensures { result ≡ false → has_numbers (value_view value.now) ≡ true }
{
    match value {
        Value::Null | Value::Bool(_) | Value::String(_) => false,
        Value::Number(_) | Value::Array(_) | Value::Object(_) => true,
    }
}
