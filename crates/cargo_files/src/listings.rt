//! Listings of the test binaries of a record.

ghost use Rattle.std.specs.Prelude.{◌≡◌, IfErr, IfOk, OnErr, OnOk, bytes_eq, map, option_map, string_bytes};
ghost use Rattle.serde_json.specs.View.{view};
ghost use Rattle.guppy_package_rules.specs.Places.{first_repeat};
ghost use Rattle.test_select_rules.specs.Binaries.{binaries};
ghost use Rattle.record_writing.specs.Files.{ReadAsListings};
ghost use Rattle.cargo_files.specs.Added.{IsAdded, listing};
ghost use Rattle.cargo_files.specs.Listed.{AreIdsIn, AreListed, ArePrinted, AreSuites, HasSuites};
ghost use Rattle.cargo_files.specs.Refused.{RefusesFile, RefusesNextest, RefusesPrinted, RefusesSuites, RefusesTests};
ghost use Rattle.cargo_files.specs.declared.refusal.Refusal.TheVariants.{Memory};

use crate::nextest::nextest_tests;
use crate::refusal::Refusal;
use crate::terse::{TerseFault, terse_tests};
use guppy_package_rules::distinct::first_repeated_text;
use record_files::read_record;
use record_writing::listings_text;
use serde_json::Value;
use std::alloc::{AllocError, Global};
use std::str;
use test_select_rules::binaries::binaries;
use workspace_record::WorkspaceRecord;

/// The tests of each binary, by its id.
pub type Listings = Vec<(String, Vec<String>)>;

/// The ids of the test binaries of a record.
pub fn binary_ids(alloc: Global, record: &[u8]) -> Result<Vec<String>, Refusal>
    ensures ids { IfOk result (λ v. AreIdsIn «record».now (map string_bytes v.items)) }
    ensures refused { IfErr result (RefusesFile «record».now) }
{
    let record = read_record(alloc, record)?;
    Ok(ids_of(alloc, &record)?)
}

fn ids_of(alloc: Global, record: &WorkspaceRecord) -> Result<Vec<String>, AllocError>
    ensures { IfOk result (λ v. map string_bytes v.items
        ≡ map (λ b. b.id) (binaries «record».now)) }
{
    let all = binaries(alloc, record)?;
    let mut ids = Vec::new(alloc);
    for binary in &all {
        ids.push(String::from_str(alloc, binary.id.as_str())?)?;
    }
    Ok(ids)
}

/// Adds the tests of a binary. One without tests is refused, unless `built` leaves out what was not
/// built; so is one with two tests of one name.
pub fn add_listing(
    alloc: Global,
    listings: &mut Listings,
    id: &str,
    tests: Option<Vec<String>>,
    built: bool,
) -> Result<(), Refusal>
    ensures added { OnOk result (IsAdded id.now (option_map (λ v. map string_bytes v.items) tests)
        built (map listing listings.old.items) (map listing listings.new.items)) }
    ensures refused { IfErr result (RefusesTests id.now
        (option_map (λ v. map string_bytes v.items) tests) built) }
    ensures kept { OnErr result (listings.new.items ≡ listings.old.items) }
{
    let Some(tests) = tests else {
        return if built {
            Ok(())
        } else {
            Err(Refusal::NoList(String::from_str(alloc, id)?))
        };
    };
    if let Some(place) = first_repeated(alloc, &tests)? {
        let name = tests.get(place).map_or("", String::as_str);
        let id = String::from_str(alloc, id)?;
        return Err(Refusal::Repeated(id, String::from_str(alloc, name)?));
    }
    listings.push((String::from_str(alloc, id)?, tests))?;
    Ok(())
}

/// The first place whose name stands at an earlier place.
fn first_repeated(alloc: Global, names: &[String]) -> Result<Option<usize>, AllocError>
    ensures { IfOk result (λ place. place ≡ first_repeat bytes_eq (map string_bytes names.now)) }
{
    let mut lent = Vec::new(alloc);
    for name in names {
        lent.push(name.as_str())?;
    }
    first_repeated_text(alloc, &lent)
}

/// The tests of these binaries that `cargo nextest list --message-format json` printed.
pub fn nextest_listings(
    alloc: Global,
    printed: &[u8],
    ids: &[String],
    built: bool,
) -> Result<Listings, Refusal>
    ensures listed { IfOk result (λ v. AreListed printed.now (map string_bytes ids.now) built
        (map listing v.items)) }
    ensures refused { IfErr result (RefusesNextest printed.now (map string_bytes ids.now) built) }
{
    match Value::from_slice(alloc, printed) {
        Ok(list) => listed_by_nextest(alloc, &list, ids, built),
        Err(error) if error.is_memory() => Err(Refusal::Memory),
        Err(_) => Err(Refusal::NoJson),
    }
}

fn listed_by_nextest(
    alloc: Global,
    list: &Value,
    ids: &[String],
    built: bool,
) -> Result<Listings, Refusal>
    ensures suites { IfOk result (λ _. HasSuites (view list.now)) }
    ensures listed { IfOk result (λ v. AreSuites (view list.now) (map string_bytes ids.now) built
        (map listing v.items)) }
    ensures refused { IfErr result (RefusesSuites (view list.now) (map string_bytes ids.now)
        built) }
{
    if list.get("rust-suites").is_none() {
        return Err(Refusal::NoSuites);
    }
    let mut listings = Vec::new(alloc);
    for id in ids {
        let id = id.as_str();
        let tests = nextest_tests(alloc, list, id)?;
        add_listing(alloc, &mut listings, id, tests, built)?;
    }
    Ok(listings)
}

/// The tests that the program of a binary printed for `--list --format terse`.
pub fn tests_printed(alloc: Global, id: &str, printed: &[u8]) -> Result<Vec<String>, Refusal>
    ensures listed { IfOk result (λ v. ArePrinted printed.now (map string_bytes v.items)) }
    ensures refused { IfErr result (RefusesPrinted id.now printed.now) }
{
    match str::from_utf8(printed) {
        Ok(text) => match terse_tests(alloc, text) {
            Ok(tests) => Ok(tests),
            Err(TerseFault::NoTest(place)) => {
                Err(Refusal::StrayLine(String::from_str(alloc, id)?, place))
            }
            Err(TerseFault::Memory) => Err(Refusal::Memory),
        },
        Err(_) => Err(Refusal::UnreadList(String::from_str(alloc, id)?)),
    }
}

/// The file of listings.
pub fn listings_file(alloc: Global, listings: &Listings) -> Result<String, Refusal>
    ensures reads { IfOk result (λ text. ReadAsListings (map listing listings.now.items)
        (string_bytes text)) }
    ensures memory { IfErr result (λ e. e ≡ Memory) }
{
    Ok(listings_text(alloc, listings)?)
}
