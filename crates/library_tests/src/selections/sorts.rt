//! Texts in ascending order, with memory enough.

use crate::workspace::debugged;
use list_facts::sorted_texts;

#[test]
fn sorts_texts(rt: HostRuntime) {
    let mut names = Vec::new(rt.alloc());
    for name in ["b", "", "ab", "b", "a b"] {
        let name = String::from_str(rt.alloc(), name).expect(&rt, "memory");
        assert!(rt; names.push(name).is_ok());
    }
    let sorted = sorted_texts(names).expect(&rt, "memory");
    let printed = debugged(&rt, rt.alloc(), &sorted);
    assert_eq!(rt; printed.as_str(), r#"["", "a b", "ab", "b"]"#);
}
