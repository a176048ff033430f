//! Listings read from their file.

ghost use Rattle.std.specs.Prelude.{◌≡◌, map};
ghost use Rattle.record_files.specs.Files.{ReadsFile};
ghost use Rattle.record_files.specs.Outcomes.{Gives};
ghost use Rattle.record_files.specs.Trees.{seen, lent_members};
ghost use Rattle.record_files.specs.Listings.{test_names, listing, listing_of, each_listing, listings_file};

use crate::error::ReadError;
use crate::field::Field;
use crate::file::value_of;
use crate::key::Key;
use crate::lent::{Lent, members_of};
use crate::object::as_texts;
use json::{Scratch, Value};
use std::alloc::Global;
use std::collections::BTreeMap;

/// Reads listings: under each binary's id, the list of its tests' names.
///
/// A binary whose value is no list of texts, null included, is at fault and is named by its id.
pub fn read_listings(
    alloc: Global,
    bytes: &[u8],
) -> Result<BTreeMap<String, Vec<String>>, ReadError>
    ensures reads { ReadsFile (λ m. map listing m.entries) listings_file bytes.now result }
{
    let mut scratch = Scratch::new(alloc);
    let value = value_of(alloc, bytes, &mut scratch)?;
    match members_of(alloc, &value)? {
        None => Err(ReadError::at(Key::File)),
        Some(members) => listings_of(alloc, &members),
    }
}

fn listings_of(
    alloc: Global,
    members: &Lent<'_, '_>,
) -> Result<BTreeMap<String, Vec<String>>, ReadError>
    ensures { Gives (λ m. map listing m.entries) result
        (each_listing (lent_members members.now.entries)) }
{
    let mut listings = BTreeMap::new(alloc);
    for (id, value) in members.iter() {
        let tests = listing_of(alloc, id, value)?;
        let id = String::from_str(alloc, id)?;
        drop(listings.insert(id, tests)?);
    }
    Ok(listings)
}

fn listing_of(alloc: Global, id: &str, value: &Value<'_>) -> Result<Vec<String>, ReadError>
    ensures { Gives test_names result (listing_of id.now (seen value.now)) }
{
    match as_texts(alloc, value)? {
        Some(tests) => Ok(tests),
        None => {
            let id = String::from_str(alloc, id)?;
            Err(ReadError::BadShape(Field::Binary(id)))
        }
    }
}
