//! What is on, by a resolve of the record's feature graph: from what the choice switches on by itself,
//! along the edges that lead always and the links behind which a line counts. Its account, why a
//! feature is on, and the order in which the packages that are on build.
//!
//! `switched_on` asks each link's lines whether they are on (`links_on`, in `specs/LinesOn.antt`)
//! and makes the graph of the same packages with the links that are left, which keep the rules
//! (`kept_on`): none is tested again. A resolve gives the least set of nodes (`IsLeastBy`), whose
//! features are what leads on from where it begins (`proofs/LeadingFacts.antt`). It begins at more
//! than the choice switches on by itself, at what a member's `default` enables in its own package
//! too; that leads to the same set (`proofs/StartFacts.antt`).
//!
//! Begin with `resolving.rt` and `switching.rt`; `specs/Switching.antt` has what each answers. The
//! public calls are thin: each tests the record and the extras of the choice, and hands on what is
//! found. How lines that are on are numbered is private.

#![tactic(auto)]

mod dependency_orders;
mod explaining;
mod extras;
mod feature_ids;
mod included;
mod indexed_features;
pub mod laws;
mod lines_on;
mod numbering;
mod ordering;
mod questions;
mod resolving;
mod switched_graph;
mod switching;

pub use crate::dependency_orders::dependency_order;
pub use crate::explaining::{explain, explain_shared};
pub use crate::ordering::{package_order, package_order_shared};
pub use crate::questions::{checked_question, shared_question};
pub use crate::resolving::resolved_features;
pub use crate::switched_graph::switched_on;
pub use crate::switching::{
    account, account_shared, features_on, features_on_in, features_on_shared,
};
pub use feature_account_making::{Account, WriteAccountError, write_account, write_explanation};
pub use guppy_package_graph::PackageGraph;
pub use test_select_rules::FeaturesOn;
pub use workspace_record::PlatformTable;
