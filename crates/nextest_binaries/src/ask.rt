//! Asking for the listings of many binaries.

ghost use Rattle.std.specs.Prelude.{map};
ghost use Rattle.list_facts.specs.Texts.{texts};
ghost use Rattle.nextest_binaries.specs.Asking.{ListsEach, TakesEach};

use crate::binary_info::BinaryInfo;
use crate::fault::AskError;
use crate::lister::{Listing, TestLister};
use crate::listing::fault_of;
use std::alloc::Global;
use std::collections::BTreeMap;

/// Asks the lister for each binary in order, and tests each answer before it asks for the next. The
/// first failed call or bad listing ends the asking.
pub fn ask_each(
    alloc: Global,
    binaries: &[BinaryInfo<'_>],
    lister: &mut dyn TestLister,
) -> Result<Vec<Listing>, AskError>
    ensures { ListsEach (shown lister.old) (map (λ b. b.id.now) binaries.now) result
        (shown lister.new) }
{
    let mut listings = Vec::new(alloc);
    for (i, binary) in binaries.iter().enumerate() {
        let Ok(listing) = lister.list(binary) else {
            return Err(AskError::Lister(i));
        };
        if let Some(fault) = fault_of(alloc, &listing)? {
            return Err(AskError::BadListing(i, fault));
        }
        listings.push(listing)?;
    }
    Ok(listings)
}

/// Takes the listings of these binaries, told by their ids, out of a map, and tests each before it takes
/// the next: what `ask_each` comes to by a lister over the map, without a copy of a name. A binary is
/// blamed if the map has no listing for it, or none any more.
pub fn take_each(
    alloc: Global,
    ids: &[String],
    listings: &mut BTreeMap<String, Listing>,
) -> Result<Vec<Listing>, AskError>
    ensures { TakesEach listings.old (texts ids.now) result listings.new }
{
    let mut taken = Vec::with_capacity(alloc, ids.len())?;
    for (place, id) in ids.iter().enumerate() {
        let Some(listing) = listings.remove(id.as_str()) else {
            return Err(AskError::Lister(place));
        };
        if let Some(fault) = fault_of(alloc, &listing)? {
            return Err(AskError::BadListing(place, fault));
        }
        taken.push(listing)?;
    }
    Ok(taken)
}
