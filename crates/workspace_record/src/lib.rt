//! Plain records of a Cargo workspace: its packages with their features and targets, the links among
//! them, the features that are asked for, and what is known of a platform. Beside them stands what is
//! found in a record at once: packages by id, members, the features of a package by name, and links by
//! the names that packages give them.
//!
//! In a contract a record is one of `specs/Records.antt` with the same fields, a text the list of
//! its bytes, a vector a list: a clause says `find (λ p. bytes_eq id p.id) record.packages`. In
//! `specs/` the struct's own name stands for that record. Equality is written by hand, field by
//! field (`specs/RecordEquality.antt`), and proved to hold exactly of equal values, by
//! `Equality.decide_by`. `PlatformTable` has no model: contracts ask it by `answer`, or list its
//! answers by `answered`. A copy is an inherent `copy` that takes the allocator.
//!
//! Begin with `specs/Records.antt`, then `workspace.rt` and `package.rt`; `record_index.rt` finds
//! things. How an index keeps what it finds is private; fields, their order and equality are what
//! files, graphs and rules stand on.

#![tactic(auto)]

mod choice;
mod entry;
mod feature;
mod kinds;
mod label;
mod link;
mod link_lines;
mod link_names;
mod package;
mod package_index;
mod packages_by_id;
mod record_index;
mod target;
mod text_sets;
mod texts;
mod workspace;

pub use crate::choice::{FeatureChoice, PlatformTable};
pub use crate::entry::{Entry, entry_of};
pub use crate::feature::Feature;
pub use crate::kinds::{LineKind, Standard, TargetKind};
pub use crate::label::Label;
pub use crate::link::{LineRecord, LinkRecord, copy_links};
pub use crate::link_names::LentLink;
pub use crate::package::{FeatureRecord, PackageInfo, PackageRecord, copy_packages};
pub use crate::package_index::PackageIndex;
pub use crate::record_index::RecordIndex;
pub use crate::target::{TargetInfo, TargetRecord};
pub use crate::workspace::{GroupRecord, MemberRecord, WorkspaceInfo, WorkspaceRecord};
