//! What `cargo metadata --format-version 1` prints of a workspace: its packages with the dependencies
//! that they declare, what Cargo resolved these to, and the workspace's members.
//!
//! Begin with `metadata.rt`. Which key is wrong, and how it is told, is public; how an object is gone
//! through is private.
#![tactic(auto)]

mod called;
mod dependency;
mod details;
mod error;
mod folder;
mod key;
mod metadata;
mod object;
mod package;
mod resolved;
mod target;

pub use crate::dependency::Dependency;
pub use crate::error::MetadataError;
pub use crate::folder::folder_of;
pub use crate::key::Key;
pub use crate::metadata::{Metadata, WorkspaceNames, read_metadata};
pub use crate::package::DeclaringPackage;
pub use crate::resolved::{ResolvedDependency, ResolvedKind, ResolvedPackage};
