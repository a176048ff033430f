//! Runs whose streams fail.

use crate::files::Files;
use crate::runs::words::{RUNS, TESTS};
use crate::writers::SlowWriter;
use std::io::ErrorKind;
use test_select::run;

/// How many writes an output takes at most before a run here is whole.
const WRITES: usize = 100;

const BROKEN: ErrorKind = ErrorKind::BrokenPipe;

/// A run whose output takes any smaller number of writes than it makes says that it cannot write, and what
/// was taken is a beginning of what the whole run prints.
#[test]
fn an_output_that_fails_at_each_write(rt: HostRuntime) {
    let alloc = rt.alloc();
    for (words, whole) in RUNS {
        let mut is_whole = false;
        for left in 0..WRITES {
            let mut out = SlowWriter::new(alloc, usize::MAX, left, BROKEN);
            let mut err = Vec::new(alloc);
            let status = run(alloc, words, &mut Files, &mut out, &mut err);
            if status == 0 {
                assert_eq!(rt; out.taken.as_slice(), whole.as_bytes());
                assert!(rt; left > 0);
                is_whole = true;
                break;
            }
            assert_eq!(rt; status, 1);
            assert_eq!(rt; err.as_slice(), b"cannot write\n".as_slice());
            assert!(rt; whole.as_bytes().starts_with(&out.taken));
        }
        assert!(rt; is_whole, "no run was whole");
    }
}

#[test]
fn an_output_that_is_not_flushed(rt: HostRuntime) {
    let alloc = rt.alloc();
    for words in [TESTS.as_slice(), &["test_select", "--help"]] {
        let mut out = SlowWriter::new(alloc, usize::MAX, usize::MAX, BROKEN);
        out.flushes = false;
        let mut err = Vec::new(alloc);
        let status = run(alloc, words, &mut Files, &mut out, &mut err);
        assert_eq!(rt; err.as_slice(), b"cannot write\n".as_slice());
        assert_eq!(rt; status, 1);
    }
}

const STATUSES: [(&[&str], usize, u8); 5] = [
    (&TESTS, 100, 0),
    (&TESTS, 0, 1),
    (&["test_select", "tests"], 100, 2),
    (&["test_select", "--help"], 100, 0),
    (&["test_select", "--help"], 0, 1),
];

/// The status is that of a run whose standard error takes all.
#[test]
fn a_standard_error_that_fails(rt: HostRuntime) {
    let alloc = rt.alloc();
    for (words, left, want) in STATUSES {
        let mut out = SlowWriter::new(alloc, usize::MAX, left, BROKEN);
        let mut err = SlowWriter::new(alloc, usize::MAX, 0, BROKEN);
        let status = run(alloc, words, &mut Files, &mut out, &mut err);
        assert_eq!(rt; status, want);
    }
}
