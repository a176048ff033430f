//! Rows run one after another, and compared.

use crate::answer::{Answer, Answers};
use crate::fault::RowFault;
use crate::report::Report;
use crate::row::Row;
use serde_json::Value;
use std::alloc::Global;
use std::fs;
use std::io::{self, Write};

/// Runs rows of one sort.
pub trait RowRunner {
    /// The keys under which a row says what it is run on.
    fn inputs(&self) -> &'static [&'static str];

    /// Runs the row, and keeps all that came of it.
    fn run_row(
        &mut self,
        alloc: Global,
        row: Row<'_>,
        answers: &mut Answers,
    ) -> Result<(), RowFault>;
}

/// Runs each row of this sort in the file with the name, and writes what differs from what is expected: the
/// row's name, the key, what was expected and what came. The last line counts the rows of the sort, and
/// those that differ.
///
/// Answers whether there were rows and none differs. A row differs too where it expects nothing, or has
/// a key that is neither an input nor the key of an answer.
pub fn run_file<R: RowRunner, W: Write>(
    rt: &HostRuntime,
    sort: &str,
    file: &str,
    runner: &mut R,
    out: &mut W,
) -> io::Result<bool> {
    let text = fs::read(rt, file)?;
    run_rows(rt.alloc(), sort, &text, runner, out)
}

fn run_rows<R: RowRunner, W: Write>(
    alloc: Global,
    sort: &str,
    file: &[u8],
    runner: &mut R,
    out: &mut W,
) -> io::Result<bool> {
    match Value::from_slice(alloc, file) {
        Ok(value) => run_value(alloc, sort, &value, runner, out),
        Err(_) => {
            writeln!(out, "{sort}: the file of rows is not JSON")?;
            Ok(false)
        }
    }
}

fn run_value<R: RowRunner, W: Write>(
    alloc: Global,
    sort: &str,
    value: &Value,
    runner: &mut R,
    out: &mut W,
) -> io::Result<bool> {
    let Some(values) = value.as_array() else {
        writeln!(out, "{sort}: the file of rows is no list")?;
        return Ok(false);
    };
    let rows = rows_of(alloc, values.as_slice())?;
    run_each(alloc, sort, &rows, runner, out)
}

fn run_each<R: RowRunner, W: Write>(
    alloc: Global,
    sort: &str,
    rows: &[Row<'_>],
    runner: &mut R,
    out: &mut W,
) -> io::Result<bool> {
    let mut differ = 0u64;
    for row in rows {
        if !run_one(alloc, *row, runner, out)? {
            differ = differ.saturating_add(1);
        }
    }
    writeln!(out, "{sort}: {} rows, {differ} differ", rows.len())?;
    Ok(differ == 0 && !rows.is_empty())
}

/// The rows of the list, those of groups in the groups' places.
fn rows_of<'a>(alloc: Global, values: &'a [Value]) -> io::Result<Vec<Row<'a>>> {
    let mut rows = Vec::new(alloc);
    for value in values {
        match value.get("rows").and_then(Value::as_array) {
            None => rows.push(Row {
                own: value,
                group: None,
            })?,
            Some(inner) => {
                let group = Some(value);
                for own in inner.as_slice() {
                    rows.push(Row { own, group })?;
                }
            }
        }
    }
    Ok(rows)
}

/// Runs one row, and answers whether it came as expected.
fn run_one<R: RowRunner, W: Write>(
    alloc: Global,
    row: Row<'_>,
    runner: &mut R,
    out: &mut W,
) -> io::Result<bool> {
    let mut answers = Answers::new(alloc);
    let ran = runner.run_row(alloc, row, &mut answers);
    let mut report = Report::of(alloc, row);
    let same = tell_one(alloc, row, runner.inputs(), ran, &answers, &mut report);
    write!(out, "{}", report.text)?;
    Ok(same)
}

/// Tells what differs of a row that was run, or why it was not.
fn tell_one(
    alloc: Global,
    row: Row<'_>,
    inputs: &[&str],
    ran: Result<(), RowFault>,
    answers: &Answers,
    report: &mut Report<'_>,
) -> bool {
    match ran {
        Ok(()) if answers.refused => report.line(&RowFault::Memory),
        Ok(()) => return told(alloc, row, inputs, &answers.items, report),
        Err(fault) => report.line(&fault),
    }
    false
}

/// Tells each difference between what came and what the row expects.
fn told(
    alloc: Global,
    row: Row<'_>,
    inputs: &[&str],
    answers: &[Answer],
    report: &mut Report<'_>,
) -> bool {
    let mut same = are_known(row.own, inputs, answers, report);
    if let Some(group) = row.group {
        same &= are_known(group, inputs, answers, report);
    }
    let mut expects = false;
    for answer in answers {
        let Some(expected) = row.get(answer.key) else {
            continue;
        };
        expects |= !expected.is_null();
        if !answer.is_expected(alloc, expected).unwrap_or(false) {
            same = false;
            report.differs(answer, expected);
        }
    }
    if !expects {
        report.line(&"the row expects nothing");
    }
    same && expects
}

/// Tells each key of a row or a group that nobody reads.
fn are_known(value: &Value, inputs: &[&str], answers: &[Answer], report: &mut Report<'_>) -> bool {
    let Some(members) = value.as_object() else {
        return true;
    };
    let mut known = true;
    for key in members.keys() {
        if !is_known(key.as_str(), inputs, answers) {
            known = false;
            report.line(&format_args!("nobody reads `{key}`"));
        }
    }
    known
}

fn is_known(key: &str, inputs: &[&str], answers: &[Answer]) -> bool {
    ["name", "rows"].contains(&key)
        || inputs.contains(&key)
        || answers.iter().any(|answer| answer.key == key)
}
