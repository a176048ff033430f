//! The rows of a package graph with what is found in them at once: packages by id, members by path and
//! by name, the links of a package by both ends, and what the accessors of one row lend.
//!
//! The table keeps in its invariant ids with their places, the versions that were read while the
//! rules were tested, the members (`IndexesPackages`); requirements, and the graph of the places
//! with its listing (`IndexesLinks`). Tables that differ in their links alone share the former with
//! the rows (`SharedRows`). In contracts a table is its rows and its listing (`TableValue`). Links
//! are seen as links of places (`numbered_links`), so paths, walks, listings and cycles are those of
//! `numbered_graph`.
//!
//! Begin with `specs/Tables.antt`, then `table.rt`. How members and ids are found is private; that a
//! table is one of its rows (`IsTableOf`) is what graphs stand on.

#![tactic(auto)]

mod build_targets;
mod found_members;
mod indices;
mod link_details;
mod member_texts;
mod members;
mod named_features;
mod numbering;
mod orders;
mod package_details;
mod package_ids;
mod rust_names;
mod table;
mod table_links;

pub use crate::build_targets::BuildTargets;
pub use crate::found_members::{find_by_name, find_by_path};
pub use crate::link_details::LinkDetails;
pub use crate::member_texts::{name_at, path_at};
pub use crate::named_features::NamedFeatures;
pub use crate::orders::{MemberOrders, member_orders};
pub use crate::package_details::PackageDetails;
pub use crate::table::PackageTable;
pub use guppy_package_rules::PackageGraphError;
