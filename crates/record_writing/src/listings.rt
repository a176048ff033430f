//! Listings written as files.

ghost use Rattle.std.specs.Prelude.{◌≡◌, IfOk, map, string_bytes};
ghost use Rattle.serde_json.specs.Data.{no_members};
ghost use Rattle.serde_json.specs.View.{members_view};
ghost use Rattle.record_files.specs.Listings.{listing};
ghost use Rattle.record_writing.specs.Files.{ReadAsListings};
ghost use Rattle.record_writing.specs.Maps.{listing_member, listings_line};
ghost use Rattle.record_writing.specs.Members.{put_all};

use crate::object::texts_value;
use serde_json::{Map, Value, put};
use std::alloc::{AllocError, Global};

/// The file of listings, with a line for each binary and each test, in the order of the ids' bytes. Of
/// listings of one binary the last counts.
pub fn listings_text(
    alloc: Global,
    listings: &[(String, Vec<String>)],
) -> Result<String, AllocError>
    ensures reads { IfOk result (λ text. ReadAsListings (map listing listings.now)
        (string_bytes text)) }
{
    let value = Value::Object(listings_object(alloc, listings)?);
    value.to_string_pretty(alloc)
}

/// The same as one line, as `serde_json` writes it compactly, and a line feed: an object that has, under
/// each id, the list of its tests. With its line feed it is a file of listings too.
pub fn listings_line(
    alloc: Global,
    listings: &[(String, Vec<String>)],
) -> Result<String, AllocError>
    ensures line { IfOk result (λ text. string_bytes text
        ≡ listings_line (map listing listings.now)) }
    ensures reads { IfOk result (λ text. ReadAsListings (map listing listings.now)
        (string_bytes text)) }
{
    let value = Value::Object(listings_object(alloc, listings)?);
    let mut line = value.to_string(alloc)?;
    line.push_str("\n")?;
    Ok(line)
}

fn listings_object(
    alloc: Global,
    listings: &[(String, Vec<String>)],
) -> Result<Map<String, Value>, AllocError>
    ensures { IfOk result (λ m. members_view m.entries
        ≡ put_all (map listing_member (map listing listings.now)) no_members) }
{
    let mut object = Map::new(alloc);
    for (id, tests) in listings {
        put(&mut object, alloc, id.as_str(), texts_value(alloc, tests)?)?;
    }
    Ok(object)
}
