//! A lister over listings that were read before.

ghost use Rattle.std.specs.Prelude.{◌≡◌, ◌<◌, ◌++◌, ◌∷◌, [], ◌⊎◌, OnOk, OnErr, IfOk, Some};
ghost use Rattle.list_facts.specs.Texts.{texts};
ghost use Rattle.nextest_binaries.specs.FileListers.{shown_of};
ghost use Rattle.nextest_binaries.specs.Listers.{largest, listing_in, unasked};

use crate::binary_info::BinaryInfo;
use crate::fault::ListFault;
use crate::lister::{Listing, TestLister};
use list_facts::copy_texts;
use std::alloc::{AllocError, Global};
use std::collections::BTreeMap;

/// Answers with a copy of the listing that it was made with, and fails for an id that has none.
#[derive(Drop)]
pub struct FileLister {
    alloc: Global,
    listings: BTreeMap<String, Listing>,
    asked: Vec<String>,
    failures: u64,
}

impl FileLister {
    /// A lister over the listings, by the ids of their binaries, with room for an id of each.
    pub fn new(alloc: Global, listings: BTreeMap<String, Listing>) -> Result<FileLister, AllocError>
        ensures unasked { IfOk result (λ lister. shown_of lister ≡ unasked listings) }
    {
        let asked = Vec::with_capacity(alloc, listings.len())?;
        Ok(FileLister {
            alloc,
            listings,
            asked,
            failures: 0,
        })
    }

    /// The ids that were asked, first to last.
    pub fn asked(&self) -> &[String]
        ensures { texts result.now ≡ (shown_of self.now).asked }
    {
        &self.asked
    }

    /// How many calls failed.
    pub fn failures(&self) -> u64
        ensures { result ≡ (shown_of self.now).failures }
    {
        self.failures
    }
}

impl TestLister for FileLister {
    ghost use Rattle.nextest_binaries.specs.FileListers.{shown_of};

    ghost shown = { shown_of };

    fn list(&mut self, binary: &BinaryInfo<'_>) -> Result<Listing, ListFault> {
        let failures = self.failures;
        let answer = answer_of(
            self.alloc,
            &self.listings,
            &mut self.asked,
            failures,
            binary.id,
        );
        if answer.is_err() {
            self.failures = failures.saturating_add(1);
        }
        answer
    }
}

fn answer_of(
    alloc: Global,
    listings: &BTreeMap<String, Listing>,
    asked: &mut Vec<String>,
    failures: u64,
    id: &str,
) -> Result<Listing, ListFault>
    ensures asks { OnOk result (texts asked.new.items ≡ texts asked.old.items ++ id.now ∷ []) }
    ensures answers { IfOk result (λ v. (failures < largest)
        × (listing_in listings.now id.now ≡ Some (texts v.items))) }
    ensures fails { OnErr result ((texts asked.new.items ≡ texts asked.old.items)
        ⊎ (texts asked.new.items ≡ texts asked.old.items ++ id.now ∷ [])) }
{
    asked.push(String::from_str(alloc, id)?)?;
    if failures == u64::MAX {
        return Err(ListFault);
    }
    match listings.get(id) {
        Some(listing) => Ok(copy_texts(alloc, listing)?),
        None => Err(ListFault),
    }
}
