//! What errors print that no row shows.

use crate::workspace::expect_printed;
use nextest_binaries::AskError;
use test_select::{
    BuildPlatform, ListFault, ListingFault, ParseSingleError, ReadError, RecordError, SelectError,
    SourceSpan,
};

#[test]
fn want_of_memory(rt: HostRuntime) {
    let (alloc, want) = (rt.alloc(), "out of memory");
    expect_printed(&rt, alloc, &SelectError::Memory, want);
    expect_printed(&rt, alloc, &RecordError::Memory, want);
    expect_printed(&rt, alloc, &ReadError::Memory, want);
    expect_printed(&rt, alloc, &AskError::Memory, want);
}

#[test]
fn errors_of_asking(rt: HostRuntime) {
    let alloc = rt.alloc();
    expect_printed(&rt, alloc, &AskError::Lister(2), "no listing for binary 2");
    let line_feed = AskError::BadListing(0, ListingFault::LineFeed);
    let want = "bad listing for binary 0: line feed";
    expect_printed(&rt, alloc, &line_feed, want);
    let repeated = AskError::BadListing(7, ListingFault::RepeatedName);
    let want = "bad listing for binary 7: repeated name";
    expect_printed(&rt, alloc, &repeated, want);
    expect_printed(&rt, alloc, &ListFault, "no listing");
    expect_printed(&rt, alloc, &BuildPlatform::Host, "host");
}

#[test]
fn a_line_for_each_fault(rt: HostRuntime) {
    let unmatched = ParseSingleError::NoPackageMatch(SourceSpan::from((8, 2)));
    let unsupported = ParseSingleError::UnsupportedExpression(SourceSpan::from((14, 0)));
    let faults = Vec::from_array(rt.alloc(), [unmatched, unsupported]).expect(&rt, "memory");
    let want = "filter 1: operator didn't match any packages (8, 2)\n\
        filter 1: unsupported expression (14, 0)";
    expect_printed(&rt, rt.alloc(), &SelectError::Filter(1, faults), want);
}
