//! What filters are asked about: a binary, or a test in one.

use crate::binary_kind::RustTestBinaryKind;
use crate::build_platform::BuildPlatform;
use crate::rust_binary_id::RustBinaryId;
use crate::test_name::TestCaseName;
use guppy_package_parts::PackageId;

/// A binary that a filter is asked about.
#[derive(Clone, Copy, Debug, PartialEq, Eq)]
pub struct BinaryQuery<'a> {
    pub package_id: &'a PackageId,
    pub binary_id: &'a RustBinaryId,
    /// The name of its target.
    pub binary_name: &'a str,
    pub kind: &'a RustTestBinaryKind,
    /// The platform for which it is built.
    pub platform: BuildPlatform,
}

/// A test that a filter is asked about.
#[derive(Clone, Copy, Debug, PartialEq, Eq)]
pub struct TestQuery<'a> {
    /// The binary that lists it.
    pub binary_query: BinaryQuery<'a>,
    pub test_name: &'a TestCaseName,
}
