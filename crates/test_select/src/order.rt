//! The order in which packages build, printed.

ghost use Rattle.std.specs.Prelude.{◌≡◌, IfErr, flat_map, string_bytes};
ghost use Rattle.clap.specs.Words.{found_of, rows_of};
ghost use Rattle.list_facts.specs.Writers.{Writes};
ghost use Rattle.test_select_files.specs.Files.{SameAnswers};
ghost use Rattle.test_select_files.specs.Reading.{Asks};
ghost use Rattle.test_select.specs.Failures.{status_of};
ghost use Rattle.test_select.specs.FeatureCommands.{EndsOrder};
ghost use Rattle.test_select.specs.Orders.{order_line};

use crate::failure::Failure;
use clap::ArgMatches;
use list_facts::write_pieces;
use std::alloc::Global;
use std::io::{self, Write};
use test_select_features::package_order_shared;
use test_select_files::{FileSource, feature_question, named_files};

/// Writes a line for each id. After a fault of the writer what was written is a beginning of this.
pub fn write_order<W: Write>(ids: &[String], writer: &mut W) -> io::Result<()>
    ensures writes { Writes (W.contents writer.old) (W.contents writer.new) result
        (flat_map (λ id. order_line (string_bytes id)) ids.now) }
{
    for id in ids {
        write_id(id, writer)?;
    }
    Ok(())
}

fn write_id<W: Write>(id: &str, writer: &mut W) -> io::Result<()>
    ensures { Writes (W.contents writer.old) (W.contents writer.new) result (order_line id.now) }
{
    write_pieces(writer, &[id.as_bytes(), b"\n"])
}

/// Prints the order of the packages that are on.
pub(crate) fn print_order<'a, O: Write>(
    alloc: Global,
    asked: &ArgMatches<'a>,
    files: &mut dyn FileSource,
    out: &mut O,
) -> Result<(), Failure<'a>>
    ensures status { IfErr result (λ f. status_of f ≡ 1) }
    ensures prints { Asks (answers files.old) (state files.old) (state files.new)
        (EndsOrder (rows_of (found_of asked.now)) result (O.contents out.old)
        (O.contents out.new)) }
    ensures same { SameAnswers (answers files.old) (answers files.new) }
{
    let question = feature_question(alloc, named_files(asked), files)?;
    let (record, choice, table) = (&question.record, &question.choice, &question.table);
    let ids = package_order_shared(alloc, record, choice, table)?;
    write_order(&ids, out)?;
    Ok(())
}
