//! The files that `test_select` reads, each made of the bytes of what Cargo, rustc or test programs
//! print; or why not, in one line with the remedy. They are specs of platforms and the table of a
//! record's specs, choices made of Cargo's words on features, and lists of tests.
//!
//! Begin with `conversions.rt` and `listings.rt`; `spec.rt` reads specs, `choosing.rt` words on
//! features. The texts of refusals are public.

#![tactic(auto)]

mod bytes;
mod cfg_table;
mod choice_fault;
mod choosing;
mod conversions;
mod head;
mod listings;
mod meaning;
mod near;
mod nextest;
mod reading;
mod refusal;
mod refusing;
mod setting;
mod settings;
mod spec;
mod spec_fault;
mod splitting;
mod terse;
mod word;

pub use crate::cfg_table::{TableError, table_of};
pub use crate::choice_fault::ChoiceFault;
pub use crate::choosing::{FeatureWords, choice_of};
pub use crate::conversions::{choice_file, record_file, settings_file, table_file};
pub use crate::listings::{
    Listings, add_listing, binary_ids, listings_file, nextest_listings, tests_printed,
};
pub use crate::nextest::nextest_tests;
pub use crate::refusal::{Refusal, RefusedFile, SpecPlace};
pub use crate::setting::CfgSetting;
pub use crate::settings::{SettingsError, read_settings};
pub use crate::spec::spec_holds;
pub use crate::spec_fault::{Expected, SpecFault};
pub use crate::splitting::feature_words;
pub use crate::terse::{TerseFault, terse_tests};
