//! Accounts and explanations read from their files.

ghost use Rattle.record_files.specs.Trees.{seen, seen_items};
ghost use Rattle.record_files.specs.Files.{ReadsFile};
ghost use Rattle.record_files.specs.Outcomes.{Gives};
ghost use Rattle.record_files.specs.Values.{each};
ghost use Rattle.record_files.specs.Accounts.{rule_of, account_of, account_file};

use crate::account_file::AccountFile;
use crate::error::ReadError;
use crate::file::value_of;
use crate::key::Key;
use crate::number::number_of;
use crate::object::{FromValue, as_array, given, object_of};
use json::{Scratch, Value};
use std::alloc::Global;
use workspace_record::Feature;

/// Reads an account or an explanation: `rules`, a list of the numbers of rules, and of an explanation
/// its `goal`, an object with a package id as `package` and a `feature`, written as in a choice.
///
/// Each number is whole, a `usize` holds it, and it is written without a fraction or an exponent.
pub fn read_account(alloc: Global, bytes: &[u8]) -> Result<AccountFile, ReadError>
    ensures reads { ReadsFile (λ f. f) account_file bytes.now result }
{
    let mut scratch = Scratch::new(alloc);
    let value = value_of(alloc, bytes, &mut scratch)?;
    account_of(alloc, object_of(&value, Key::File)?)
}

#[tactic(auto, unfolding(crate::specs::Accounts::account_of))]
fn account_of(alloc: Global, value: &Value<'_>) -> Result<AccountFile, ReadError>
    ensures { Gives (λ f. f) result (account_of (seen value.now)) }
{
    let Some(values) = given(value, Key::Rules).and_then(as_array) else {
        return Err(ReadError::at(Key::Rules));
    };
    let rules = each_rule(alloc, values, Key::Rules)?;
    let goal = match given(value, Key::Goal) {
        None => None,
        Some(value) => Some(Feature::from_value(alloc, object_of(value, Key::Goal)?)?),
    };
    Ok(AccountFile { rules, goal })
}

fn each_rule(alloc: Global, values: &[Value<'_>], key: Key) -> Result<Vec<usize>, ReadError>
    ensures { Gives (λ v. v.items) result (each (rule_of key) (seen_items values.now)) }
{
    let mut rules = Vec::with_capacity(alloc, values.len())?;
    for value in values {
        rules.push(rule_of(value, key)?)?;
    }
    Ok(rules)
}

fn rule_of(value: &Value<'_>, key: Key) -> Result<usize, ReadError>
    ensures { Gives (λ n. n) result (rule_of key (seen value.now)) }
{
    let number = value.as_number().and_then(number_of);
    match number.and_then(|number| number.as_u64()) {
        None => Err(ReadError::at(key)),
        Some(n) => Ok(n as usize),
    }
}
