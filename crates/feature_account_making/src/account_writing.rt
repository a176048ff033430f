//! The account as text.

ghost use Rattle.std.specs.Prelude.{◌≡◌, ◌++◌, OnOk, IfOk, string_bytes, decimal};
ghost use Rattle.list_facts.specs.Writers.{Writes};
ghost use Rattle.feature_account_making.specs.AccountText.{account_text, numbers_text, LeavesWhereMemoryFails};

use crate::write_account_error::WriteAccountError;
use list_facts::write_bytes;
use std::alloc::{AllocError, Global};
use std::io::Write;

/// Writes the account as one line of JSON: `{"rules":[0,1]}` with its numbers, and a line feed.
///
/// All memory is taken before the first byte is written. After a fault of the writer what was written
/// is a beginning of the line.
pub fn write_account<W: Write>(
    alloc: Global,
    account: &[usize],
    writer: &mut W,
) -> Result<(), WriteAccountError>
    ensures writes { Writes (W.contents writer.old) (W.contents writer.new) result
        (account_text account.now) }
    ensures memory { LeavesWhereMemoryFails (W.contents writer.old) result (W.contents writer.new) }
{
    let text = match account_text(alloc, account) {
        Ok(text) => text,
        Err(error) => return Err(WriteAccountError::from(error)),
    };
    write_bytes(writer, text.as_bytes())?;
    Ok(())
}

fn account_text(alloc: Global, account: &[usize]) -> Result<String, AllocError>
    ensures { IfOk result (λ text. string_bytes text ≡ account_text account.now) }
{
    let mut text = String::from_str(alloc, "{\"rules\":[")?;
    push_numbers(alloc, &mut text, account)?;
    text.push_str("]}\n")?;
    Ok(text)
}

/// Appends the numbers, parted by commas.
pub fn push_numbers(alloc: Global, text: &mut String, numbers: &[usize]) -> Result<(), AllocError>
    ensures appended { OnOk result (string_bytes text.new
        ≡ string_bytes text.old ++ numbers_text numbers.now) }
{
    let Some((first, others)) = numbers.split_first() else {
        return Ok(());
    };
    push_number(alloc, text, *first)?;
    for number in others {
        text.push_str(",")?;
        push_number(alloc, text, *number)?;
    }
    Ok(())
}

fn push_number(alloc: Global, text: &mut String, number: usize) -> Result<(), AllocError>
    ensures { OnOk result (string_bytes text.new ≡ string_bytes text.old ++ decimal number) }
{
    let digits = format!(in alloc; "{number}")?;
    text.push_str(digits.as_str())?;
    Ok(())
}
