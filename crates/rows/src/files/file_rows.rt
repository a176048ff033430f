//! Rows of files that are read, and written again.

use crate::files::copies::Copied;
use record_files::{ReadError, read_account, read_choice, read_listings, read_record, read_table};
use row_program::{Answers, Row, RowFault, RowRunner, file_text};
use std::alloc::{AllocError, Global};
use std::fmt::Debug;

/// Rows of files. A row's `kind` is that of its `file`: `record`, `choice`, `table`, `account` or
/// `listings`; in place of `file` it may have `bytes`, a list of numbers. What comes is the `value`
/// that is read, as `Debug` prints it, or else `refused`, the error; and where a row wants
/// `beginnings`, what each beginning of the file that is not the whole of it is refused with.
#[derive(Drop)]
pub(crate) struct FileRows;

impl RowRunner for FileRows {
    fn inputs(&self) -> &'static [&'static str] {
        &["kind", "file", "bytes"]
    }

    fn run_row(
        &mut self,
        alloc: Global,
        row: Row<'_>,
        answers: &mut Answers,
    ) -> Result<(), RowFault> {
        let kind = row.text("kind")?;
        let bytes = bytes_of(alloc, row)?;
        if row.get("beginnings").is_some() {
            for end in 0..bytes.len() {
                tell_read(alloc, kind, &bytes[..end], false, answers)?;
            }
        }
        tell_read(alloc, kind, &bytes, true, answers)
    }
}

fn bytes_of(alloc: Global, row: Row<'_>) -> Result<Vec<u8>, RowFault> {
    if let Some(file) = row.get("file") {
        return Ok(file_text(alloc, file)?.into_bytes());
    }
    let mut bytes = Vec::new(alloc);
    for number in &row.numbers(alloc, "bytes")? {
        match u8::try_from(*number) {
            Ok(byte) => bytes.push(byte)?,
            Err(_) => return Err(RowFault::Key("bytes")),
        }
    }
    Ok(bytes)
}

/// Tells what the bytes are read as: a whole file, or a beginning of one.
fn tell_read(
    alloc: Global,
    kind: &str,
    bytes: &[u8],
    whole: bool,
    answers: &mut Answers,
) -> Result<(), RowFault> {
    match kind {
        "record" => tell(alloc, read_record(alloc, bytes), whole, answers),
        "choice" => tell(alloc, read_choice(alloc, bytes), whole, answers),
        "table" => tell(alloc, read_table(alloc, bytes), whole, answers),
        "account" => tell(alloc, read_account(alloc, bytes), whole, answers),
        "listings" => tell(alloc, read_listings(alloc, bytes), whole, answers),
        _ => return Err(RowFault::Key("kind")),
    }
    Ok(())
}

fn tell<T: Debug + Copied + Drop>(
    alloc: Global,
    read: Result<T, ReadError>,
    whole: bool,
    answers: &mut Answers,
) {
    match read {
        Ok(value) if whole => {
            answers.keep("value", value_text(alloc, &value));
            answers.show("refused", &"");
        }
        Err(error) if whole => {
            answers.show("value", &"");
            answers.show("refused", &error);
        }
        Ok(_) => answers.show("beginnings", &"read"),
        Err(error) => answers.show("beginnings", &error),
    }
}

fn value_text<T: Debug + Copied>(alloc: Global, value: &T) -> Result<String, AllocError> {
    if !value.is_its_copy(alloc)? {
        return String::from_str(alloc, "its copy differs");
    }
    format!(in alloc; "{value:?}")
}
