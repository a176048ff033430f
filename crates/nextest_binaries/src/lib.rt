//! The test binaries of nextest: their ids, kinds and platforms, what a lister is told of one, and what
//! filters are asked about one and about its tests. And listers, which answer the names of the tests in
//! a binary, and asking them for many binaries in turn.
//!
//! Begin with `rust_binary_id.rt` and `lister.rt`; `specs/Listings.antt` says what a lister may answer.
//! The trait `TestLister` is what a caller brings: its ghost members are as public as its functions.

#![tactic(auto)]

mod ask;
mod binary_ids;
mod binary_info;
mod binary_kind;
mod build_platform;
mod fault;
mod file_lister;
mod lister;
mod listing;
mod queries;
mod rust_binary_id;
mod test_name;

pub use crate::ask::{ask_each, take_each};
pub use crate::binary_ids::binary_id;
pub use crate::binary_info::BinaryInfo;
pub use crate::binary_kind::RustTestBinaryKind;
pub use crate::build_platform::BuildPlatform;
pub use crate::fault::{AskError, ListFault, ListingFault};
pub use crate::file_lister::FileLister;
pub use crate::lister::{Listing, TestLister};
pub use crate::listing::names_ascend;
pub use crate::queries::{BinaryQuery, TestQuery};
pub use crate::rust_binary_id::RustBinaryId;
pub use crate::test_name::TestCaseName;
pub use guppy_package_parts::PackageId;
