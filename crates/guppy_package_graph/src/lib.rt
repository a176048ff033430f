//! guppy's package graph: packages and the links between them, walks over them that a visitor steers,
//! sets of packages and the order in which they are listed. It gives out all of the parts.
//!
//! `PackageMetadata` and `PackageLink` are a graph with a place or a number, and deref to what the
//! row says. Sets and queries have models (`SetValue`, `QueryValue`); views that are `Copy` have
//! none and are seen by functions of `specs/Views.antt`. A resolve is the loop over `Walk` in
//! `resolving.rt`, once with a `&mut dyn PackageLinkVisitor` and once with a closure: a small
//! function asks about one link. A part of a set that a callback chooses is the loop in
//! `choosing.rt` over `Listed`: all memory is taken first, and its invariant (`IsChoosing`) says
//! what was asked, in which order, and how the answers chain.
//!
//! Begin with `package_graph.rt`, then `package_query.rt` and `package_set.rt`; `specs/Resolves.antt`
//! says what a resolve answers. Each public item is a name of guppy's.

#![tactic(auto)]

mod all_cycles;
mod all_packages;
mod choosing;
mod cycles;
mod dependency_direction;
mod depending;
mod depends_cache;
mod direct_links;
mod filters;
mod found_members;
mod found_packages;
pub mod laws;
mod members_by_name;
mod members_by_path;
mod metadata_links;
mod metadata_sets;
mod other_links;
mod package_graph;
mod package_ids;
mod package_link;
mod package_link_context;
mod package_metadata;
mod package_query;
mod package_set;
mod package_sets;
mod packages;
mod packages_at;
mod places;
mod queries;
mod resolves;
mod resolving;
mod set_equality;
mod set_parts;
mod visitor;
mod workspace;
mod workspace_members;

pub use crate::all_cycles::AllCycles;
pub use crate::all_packages::AllPackages;
pub use crate::cycles::Cycles;
pub use crate::depends_cache::DependsCache;
pub use crate::direct_links::DirectLinks;
pub use crate::members_by_name::MembersByName;
pub use crate::members_by_path::MembersByPath;
pub use crate::package_graph::PackageGraph;
pub use crate::package_ids::{PackageIds, PackageIdsAt};
pub use crate::package_link::PackageLink;
pub use crate::package_link_context::PackageLinkContext;
pub use crate::package_metadata::PackageMetadata;
pub use crate::package_query::PackageQuery;
pub use crate::package_set::PackageSet;
pub use crate::packages::Packages;
pub use crate::packages_at::PackagesAt;
pub use crate::visitor::PackageLinkVisitor;
pub use crate::workspace::Workspace;
pub use guppy_package_parts::{
    BuildTarget, BuildTargetId, BuildTargetKind, DependencyDirection, DependencyKind,
    DependencyReq, EnabledStatus, EnabledTernary, Error, ExternalSource, FeatureBuildStage,
    FeatureGraphWarning, FeatureRow, GitReq, LineChoice, LineKind, LineRow, LinkRow, MemberRow,
    PackageId, PackagePublish, PackageRow, PackageRowInfo, PackageSource, Platform, PlatformEval,
    PlatformSpec, PlatformStatus, RequirementFeatures, SortedSet, TargetKind, TargetRow,
    TargetRowInfo, TargetSpecs, WorkspaceRow,
};
pub use guppy_package_rules::RecordRule;
pub use guppy_package_table::{
    BuildTargets, LinkDetails, NamedFeatures, PackageDetails, PackageGraphError,
};
pub use numbered_graph::{Direction, Looks};
pub use workspace_record::WorkspaceRecord;
