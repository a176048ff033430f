//! Reports, orders, accounts, explanations and features into writers that take little or fail.

use crate::workspace::{question_of, selected, simd};
use crate::writers::SlowWriter;
use feature_account_making::write_features;
use std::alloc::Global;
use std::io::ErrorKind;
use std::process::Abort;
use test_select::{
    Feature, FileLister, Selection, WriteAccountError, read_listings, write_account,
    write_explanation, write_order, write_report,
};

/// What can be written.
#[derive(Drop)]
enum Written {
    Report(Selection),
    Order(Vec<String>),
    Account(&'static [usize]),
    Explanation(Feature, &'static [usize]),
    Features(Vec<Feature>),
}

impl Written {
    /// Writes it. A fault of the writer is told as the writing of an account tells it.
    fn write(&self, alloc: Global, writer: &mut SlowWriter) -> Result<(), WriteAccountError> {
        match self {
            Written::Report(selection) => Ok(write_report(selection, writer)?),
            Written::Order(ids) => Ok(write_order(ids, writer)?),
            Written::Account(rules) => write_account(alloc, *rules, writer),
            Written::Explanation(goal, rules) => write_explanation(alloc, goal, *rules, writer),
            Written::Features(features) => write_features(alloc, features, writer),
        }
    }
}

/// How many bytes the writer takes at a time, how many writes, the error, and how many bytes it took.
type End = (usize, usize, Option<ErrorKind>, usize);

const BROKEN: ErrorKind = ErrorKind::BrokenPipe;

/// Asserts these ends; that a writer which fails after any number of bytes is told so, and took just
/// these; and that one which takes all of them is not. What was taken is a beginning of all.
fn expect_ends(rt: &impl Abort, alloc: Global, written: Written, whole: &[u8], ends: &[End]) {
    let mut ends = Vec::from_slice(alloc, ends).expect(rt, "memory");
    for left in 0..whole.len() {
        assert!(rt; ends.push((1, left, Some(BROKEN), left)).is_ok());
    }
    assert!(rt; ends.push((1, whole.len(), None, whole.len())).is_ok());
    for end in &ends {
        let (most, left, error, taken) = *end;
        let mut writer = SlowWriter::new(alloc, most, left, error.unwrap_or(BROKEN));
        let kind = match written.write(alloc, &mut writer) {
            Ok(()) => None,
            Err(WriteAccountError::Memory) => Some(ErrorKind::OutOfMemory),
            Err(WriteAccountError::Write(fault)) => Some(fault.kind()),
        };
        assert_eq!(rt; kind, error);
        assert_eq!(rt; writer.taken.len(), taken);
        assert!(rt; whole.starts_with(&writer.taken));
    }
}

/// Three packages with a library each.
const RECORD: &[u8] = br#"{"packages": [
    {"id": "c", "name": "c", "version": "1.0.0", "targets": [{"kind": "lib", "name": "c"}]},
    {"id": "a", "name": "a", "version": "1.0.0", "targets": [{"kind": "lib", "name": "a"}]},
    {"id": "b 1.0.0", "name": "b-b", "version": "1.0.0", "targets": [{"kind": "lib", "name": "b_b"}]}
], "workspace": {"members": [
    {"package": "c", "path": "c"}, {"package": "a", "path": "a"},
    {"package": "b 1.0.0", "path": "b"}
]}}"#;

/// The report of what is chosen from these listings.
fn report(rt: &impl Abort, alloc: Global, listings: &[u8]) -> Written {
    let listings = read_listings(alloc, listings).expect(rt, "listings");
    let mut lister = FileLister::new(alloc, listings).expect(rt, "a lister");
    let question = question_of(rt, alloc, RECORD, b"{}");
    let selection = selected(alloc, &question, false, &[], &mut lister);
    Written::Report(selection.expect(rt, "a selection"))
}

// The letter ü is C3 BC.
const REPORT: &[u8] = b"a \na x y\na \xc3\xbc\nb-b m::one\n";

/// Also faults after which others would write again.
const REPORT_ENDS: [End; 12] = [
    (1, 25, None, 25),
    (5, 25, None, 25),
    (100, 15, None, 25),
    (1, 24, Some(BROKEN), 24),
    (1, 0, Some(BROKEN), 0),
    (2, 1, Some(BROKEN), 1),
    (100, 3, Some(BROKEN), 3),
    (100, 14, Some(BROKEN), 24),
    (0, 100, Some(ErrorKind::WriteZero), 0),
    (1, 3, Some(ErrorKind::Interrupted), 3),
    (1, 3, Some(ErrorKind::WouldBlock), 3),
    (1, 3, Some(ErrorKind::OutOfMemory), 3),
];

#[test]
fn reports(rt: HostRuntime) {
    let listings = br#"{"a": ["x y", "", "\u00fc"], "b-b": ["m::one"], "c": []}"#;
    let report = report(&rt, rt.alloc(), listings);
    expect_ends(&rt, rt.alloc(), report, REPORT, &REPORT_ENDS);
}

/// Nothing is written of it, so that nothing fails.
#[test]
fn an_empty_report(rt: HostRuntime) {
    let report = report(&rt, rt.alloc(), br#"{"a": [], "b-b": [], "c": []}"#);
    expect_ends(&rt, rt.alloc(), report, b"", &[(0, 0, None, 0)]);
}

const ORDER_ENDS: [End; 5] = [
    (1, 9, None, 9),
    (100, 5, None, 9),
    (1, 5, Some(BROKEN), 5),
    (100, 0, Some(BROKEN), 0),
    (0, 100, Some(ErrorKind::WriteZero), 0),
];

#[test]
fn orders(rt: HostRuntime) {
    let mut ids = Vec::new(rt.alloc());
    for id in ["low", "", "top"] {
        let id = String::from_str(rt.alloc(), id).expect(&rt, "memory");
        assert!(rt; ids.push(id).is_ok());
    }
    let order = Written::Order(ids);
    expect_ends(&rt, rt.alloc(), order, b"low\n\ntop\n", &ORDER_ENDS);
}

#[test]
fn accounts(rt: HostRuntime) {
    let account = Written::Account(&[0, 12]);
    expect_ends(&rt, rt.alloc(), account, b"{\"rules\":[0,12]}\n", &[]);
}

#[test]
fn explanations(rt: HostRuntime) {
    let explanation = Written::Explanation(simd(&rt, rt.alloc()), &[2, 9]);
    let line = b"{\"goal\":{\"package\":\"util\",\"feature\":\"simd\"},\"rules\":[2,9]}\n";
    expect_ends(&rt, rt.alloc(), explanation, line, &[]);
}

#[test]
fn features_on(rt: HostRuntime) {
    let mut features = Vec::new(rt.alloc());
    assert!(rt; features.push(simd(&rt, rt.alloc())).is_ok());
    let features = Written::Features(features);
    expect_ends(&rt, rt.alloc(), features, b"util/simd\n", &[]);
}
