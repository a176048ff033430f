//! What one row of a package graph says: ids of packages, where they come from and where they may go,
//! what they build; on which platforms a dependency is on, and what is required of it. Beside these
//! stand the errors and the warnings of graphs.
//!
//! A view of a row (`BuildTarget`, `DependencyReq`, `PlatformEval`) holds references and no memory;
//! contracts see it by a function of `specs/..View(s).antt`. A status keeps no list: it keeps where
//! its lines are (`Lines`) and goes over them by `split_first`.
//!
//! Begin with `platform_status.rt` and `specs/Statuses.antt` for platforms, `package_source.rt` and
//! `specs/Sources.antt` for sources. Both graphs give these types out: their clauses are public, how a
//! text is taken apart is private.

#![tactic(auto)]

mod build_target;
mod dependency_direction;
mod dependency_kind;
mod dependency_req;
mod enabled_ternary;
mod error;
mod external_source;
mod feature_warning;
pub mod laws;
mod lines;
mod package_id;
mod package_publish;
mod package_source;
mod platform;
mod platform_status;
mod requirement_features;
mod sorted_set;
mod texts;

pub use crate::build_target::{BuildTarget, BuildTargetId, BuildTargetKind};
pub use crate::dependency_direction::DependencyDirection;
pub use crate::dependency_kind::DependencyKind;
pub use crate::dependency_req::{DependencyReq, EnabledStatus};
pub use crate::enabled_ternary::EnabledTernary;
pub use crate::error::Error;
pub use crate::external_source::{ExternalSource, GitReq};
pub use crate::feature_warning::{FeatureBuildStage, FeatureGraphWarning};
pub use crate::lines::LineChoice;
pub use crate::package_id::PackageId;
pub use crate::package_publish::PackagePublish;
pub use crate::package_source::PackageSource;
pub use crate::platform::{Platform, PlatformSpec};
pub use crate::platform_status::{PlatformEval, PlatformStatus, TargetSpecs};
pub use crate::requirement_features::RequirementFeatures;
pub use crate::sorted_set::SortedSet;
pub use crate::texts::contains_text;
pub use workspace_record::{
    FeatureRecord as FeatureRow, LineKind, LineRecord as LineRow, LinkRecord as LinkRow,
    MemberRecord as MemberRow, PackageInfo as PackageRowInfo, PackageRecord as PackageRow,
    TargetInfo as TargetRowInfo, TargetKind, TargetRecord as TargetRow,
    WorkspaceInfo as WorkspaceRow,
};
