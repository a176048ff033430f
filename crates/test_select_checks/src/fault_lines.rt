//! Lines that tell the faults of a filter text.

ghost use Rattle.std.specs.Fmt.{WritesOnOk};
ghost use Rattle.test_select_checks.specs.FaultLines.{fault_line, fault_lines, more_fault_lines};

use nextest_filter_tokens::{ParseSingleError, SourceSpan};
use std::fmt;

/// A line for each fault, each with these words in front, parted by line feeds.
pub(crate) fn write_faults<W: fmt::Write>(
    f: &mut fmt::Formatter<W>,
    front: &str,
    place: usize,
    errors: &[ParseSingleError],
) -> fmt::Result
    ensures { WritesOnOk W.write_str_gives f.old result (fault_lines front.now place errors.now)
        f.new }
{
    let Some((first, others)) = errors.split_first() else {
        return Ok(());
    };
    write_fault(f, front, place, first)?;
    write_more_faults(f, front, place, others)
}

fn write_more_faults<W: fmt::Write>(
    f: &mut fmt::Formatter<W>,
    front: &str,
    place: usize,
    errors: &[ParseSingleError],
) -> fmt::Result
    ensures { WritesOnOk W.write_str_gives f.old result
        (more_fault_lines front.now place errors.now) f.new }
{
    for error in errors {
        f.write_str("\n")?;
        write_fault(f, front, place, error)?;
    }
    Ok(())
}

/// The fault, with where it lies in the text and how long it is.
fn write_fault<W: fmt::Write>(
    f: &mut fmt::Formatter<W>,
    front: &str,
    place: usize,
    error: &ParseSingleError,
) -> fmt::Result
    ensures { WritesOnOk W.write_str_gives f.old result (fault_line front.now place error.now)
        f.new }
{
    let SourceSpan { offset, len } = error.span();
    write!(f, "{front}filter {place}: {error} ({offset}, {len})")
}
