//! Features, a line for each.

ghost use Rattle.std.specs.Prelude.{◌≡◌, IfOk, flat_map, string_bytes};
ghost use Rattle.feature_account_making.specs.AccountText.{LeavesWhereMemoryFails};
ghost use Rattle.list_facts.specs.Writers.{Writes};
ghost use Rattle.feature_account_making.specs.FeatureLines.{feature_line};

use crate::printed::PrintedFeature;
use crate::write_account_error::WriteAccountError;
use list_facts::write_bytes;
use std::alloc::{AllocError, Global};
use std::io::Write;
use workspace_record::Feature;

/// Writes a line for each feature, as its id is printed.
///
/// All memory is taken before the first byte is written. After a fault of the writer what was written
/// is a beginning of the lines.
pub fn write_features<W: Write>(
    alloc: Global,
    features: &[Feature],
    writer: &mut W,
) -> Result<(), WriteAccountError>
    ensures writes { Writes (W.contents writer.old) (W.contents writer.new) result
        (flat_map feature_line features.now) }
    ensures memory { LeavesWhereMemoryFails (W.contents writer.old) result (W.contents writer.new) }
{
    let text = match feature_lines(alloc, features) {
        Ok(text) => text,
        Err(error) => return Err(WriteAccountError::from(error)),
    };
    write_bytes(writer, text.as_bytes())?;
    Ok(())
}

fn feature_lines(alloc: Global, features: &[Feature]) -> Result<String, AllocError>
    ensures { IfOk result (λ text. string_bytes text ≡ flat_map feature_line features.now) }
{
    let mut text = String::new(alloc);
    for feature in features {
        let feature = PrintedFeature { feature };
        let line = format!(in alloc; "{feature}\n")?;
        text.push_str(line.as_str())?;
    }
    Ok(text)
}
