//! Long globs, what errors of filters print, and copies of refusals.

use crate::workspace::expect_printed;
use nextest_filtering::errors::{FiltersetError, ParseExprError};
use nextest_filtering::{GenericGlob, ParsedExpr, RustTestBinaryKind};
use std::alloc::Global;
use std::process::Abort;

const LONG: usize = 70_000;

/// A text of so many equal pieces.
fn repeated(rt: &impl Abort, alloc: Global, piece: &str, count: usize) -> String {
    let mut text = String::new(alloc);
    for _ in 0..count {
        assert!(rt; text.push_str(piece).is_ok());
    }
    text
}

fn glob_of(rt: &impl Abort, alloc: Global, text: String) -> GenericGlob {
    let read = GenericGlob::new(alloc, text).expect(rt, "memory");
    read.expect(rt, "a glob")
}

#[test]
fn long_globs_match(rt: HostRuntime) {
    let name = repeated(&rt, rt.alloc(), "a", LONG);
    for piece in ["a", "?", "*", "[ab]", "*?"] {
        let glob = glob_of(&rt, rt.alloc(), repeated(&rt, rt.alloc(), piece, LONG));
        assert!(rt; glob.is_match(name.as_str()));
    }
    for piece in ["a", "?", "*?"] {
        let glob = glob_of(&rt, rt.alloc(), repeated(&rt, rt.alloc(), piece, LONG + 1));
        assert!(rt; !glob.is_match(name.as_str()));
    }
}

#[test]
fn long_alternates_match(rt: HostRuntime) {
    let mut text = repeated(&rt, rt.alloc(), "a", LONG);
    assert!(rt; text.push_str(",b}c").is_ok());
    let mut whole = String::from_str(rt.alloc(), "{").expect(&rt, "memory");
    assert!(rt; whole.push_str(text.as_str()).is_ok());
    let glob = glob_of(&rt, rt.alloc(), whole);
    for (name, want) in [("bc", true), ("b", false), ("ac", false), ("", false)] {
        assert_eq!(rt; glob.is_match(name), want);
    }
}

#[test]
fn what_filters_print(rt: HostRuntime) {
    expect_printed(
        &rt,
        rt.alloc(),
        &RustTestBinaryKind::PROC_MACRO,
        "proc-macro",
    );
    expect_printed(&rt, rt.alloc(), &FiltersetError::Memory, "out of memory");
    expect_printed(&rt, rt.alloc(), &ParseExprError::Memory, "out of memory");
    match ParsedExpr::parse(rt.alloc(), "all() && none()") {
        Err(refused) => expect_printed(&rt, rt.alloc(), &refused, "invalid filter"),
        Ok(_) => assert!(rt; false),
    }
}
