//! Tables of a platform read from their files.

ghost use Rattle.std.specs.Prelude.{◌≡◌, [], map, IfOk};
ghost use Rattle.workspace_record.specs.Tables.{answered, entry_of};
ghost use Rattle.record_files.specs.declared.key.Key.TheVariants as key;
ghost use Rattle.record_files.specs.Files.{ReadsFile};
ghost use Rattle.record_files.specs.Outcomes.{Gives};
ghost use Rattle.record_files.specs.Trees.{seen, lent_members};
ghost use Rattle.record_files.specs.Values.{otherwise};
ghost use Rattle.record_files.specs.Tables.{table_view, IsAscending, each_answer, answers_of, table_of, table_file};

use crate::error::ReadError;
use crate::file::value_of;
use crate::key::Key;
use crate::lent::{Lent, members_of};
use crate::object::{flag_of, flag_or, given, object_of};
use indexmap::IndexMap;
use json::{Scratch, Value};
use std::alloc::Global;
use workspace_record::PlatformTable;

/// Reads a table of one platform: `answers`, with a truth value under each spec, and
/// `unknown_counts`.
///
/// With no answers nothing is known, and unless the file says otherwise what is unknown counts.
pub fn read_table(alloc: Global, bytes: &[u8]) -> Result<PlatformTable, ReadError>
    ensures reads { ReadsFile table_view table_file bytes.now result }
    ensures ascending { IfOk result (λ t. IsAscending (answered t)) }
{
    let mut scratch = Scratch::new(alloc);
    let value = value_of(alloc, bytes, &mut scratch)?;
    table_of(alloc, object_of(&value, Key::File)?)
}

#[tactic(auto, unfolding(crate::specs::Tables::table_of))]
fn table_of(alloc: Global, value: &Value<'_>) -> Result<PlatformTable, ReadError>
    ensures gives { Gives table_view result (table_of (seen value.now)) }
    ensures ascending { IfOk result (λ t. IsAscending (answered t)) }
{
    let answers = answers_at(alloc, value)?;
    let unknown_counts = flag_or(value, Key::UnknownCounts, true)?;
    Ok(PlatformTable {
        answers,
        unknown_counts,
    })
}

fn answers_at(alloc: Global, value: &Value<'_>) -> Result<IndexMap<String, bool>, ReadError>
    ensures gives { Gives (λ m. map entry_of m.entries) result
        (otherwise [] answers_of key.Answers (seen value.now)) }
    ensures ascending { IfOk result (λ m. IsAscending (map entry_of m.entries)) }
{
    let Some(value) = given(value, Key::Answers) else {
        return Ok(IndexMap::new(alloc));
    };
    match members_of(alloc, value)? {
        None => Err(ReadError::at(Key::Answers)),
        Some(members) => answers_of(alloc, &members),
    }
}

fn answers_of(alloc: Global, members: &Lent<'_, '_>) -> Result<IndexMap<String, bool>, ReadError>
    ensures gives { Gives (λ m. map entry_of m.entries) result
        (each_answer (lent_members members.now.entries)) }
    ensures ascending { IfOk result (λ m. IsAscending (map entry_of m.entries)) }
{
    let mut answers = IndexMap::new(alloc);
    for (spec, value) in members.iter() {
        let answer = flag_of(value, Key::Answers)?;
        let spec = String::from_str(alloc, spec)?;
        drop(answers.insert(spec, answer)?);
    }
    Ok(answers)
}
