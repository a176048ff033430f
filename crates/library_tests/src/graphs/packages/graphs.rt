//! Records of packages and links.

/// Three packages; a depends on b and c, and b on c.
pub(crate) const TRIANGLE: &[u8] = br#"{
    "packages": [
        {"id": "a", "name": "a", "version": "1.0.0"},
        {"id": "b", "name": "b", "version": "1.0.0"},
        {"id": "c", "name": "c", "version": "1.0.0"}
    ],
    "links": [
        {"from": "a", "to": "b", "name": "b", "lines": [{}]},
        {"from": "a", "to": "c", "name": "c", "lines": [{}]},
        {"from": "b", "to": "c", "name": "c", "lines": [{}]}
    ],
    "workspace": {"members": []}
}"#;

/// The same packages; a depends on b for its tests alone, and on c.
pub(crate) const FOR_TESTS: &[u8] = br#"{
    "packages": [
        {"id": "a", "name": "a", "version": "1.0.0"},
        {"id": "b", "name": "b", "version": "1.0.0"},
        {"id": "c", "name": "c", "version": "1.0.0"}
    ],
    "links": [
        {"from": "a", "to": "b", "name": "b", "lines": [{"kind": "dev"}]},
        {"from": "a", "to": "c", "name": "c", "lines": [{"kind": "dev"}, {}]}
    ],
    "workspace": {"members": []}
}"#;

/// The same packages, where c depends on a.
pub(crate) const TURNED: &[u8] = br#"{
    "packages": [
        {"id": "a", "name": "a", "version": "2.0.0"},
        {"id": "b", "name": "b", "version": "2.0.0"},
        {"id": "c", "name": "c", "version": "2.0.0"}
    ],
    "links": [{"from": "c", "to": "a", "name": "a", "lines": [{}]}],
    "workspace": {"members": []}
}"#;

/// The same packages, one after the other.
pub(crate) const CHAIN: &[u8] = br#"{
    "packages": [
        {"id": "a", "name": "a", "version": "1.0.0"},
        {"id": "b", "name": "b", "version": "1.0.0"},
        {"id": "c", "name": "c", "version": "1.0.0"}
    ],
    "links": [
        {"from": "a", "to": "b", "name": "b", "lines": [{}]},
        {"from": "b", "to": "c", "name": "c", "lines": [{}]}
    ],
    "workspace": {"members": []}
}"#;

/// Two pairs of packages, those of each on a cycle, and no link between the pairs.
pub(crate) const TWO_PAIRS: &[u8] = br#"{
    "packages": [
        {"id": "a", "name": "a", "version": "1.0.0"},
        {"id": "b", "name": "b", "version": "1.0.0"},
        {"id": "c", "name": "c", "version": "1.0.0"},
        {"id": "d", "name": "d", "version": "1.0.0"}
    ],
    "links": [
        {"from": "a", "to": "d", "name": "d", "lines": [{"kind": "dev"}]},
        {"from": "d", "to": "a", "name": "a", "lines": [{}]},
        {"from": "c", "to": "b", "name": "b", "lines": [{}]},
        {"from": "b", "to": "c", "name": "c", "lines": [{"kind": "dev"}]}
    ],
    "workspace": {"members": []}
}"#;

/// Two of the packages.
pub(crate) const FEWER: &[u8] = br#"{
    "packages": [
        {"id": "a", "name": "a", "version": "1.0.0"},
        {"id": "b", "name": "b", "version": "1.0.0"}
    ],
    "links": [],
    "workspace": {"members": []}
}"#;
