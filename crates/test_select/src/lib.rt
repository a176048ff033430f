//! Which tests run: those that some filter texts choose, of the binaries that are available under a
//! choice of features on one platform.
//!
//! Begin with `selections.rt` for the calls and `program.rt` for the run of the program; `laws.rt`
//! gives out the laws. Command lines and help are in `command_line.rt`. What is printed is public.
#![tactic(auto)]

mod accounts;
mod binaries;
mod changes;
mod command_line;
mod explanations;
mod failure;
mod inputs;
pub mod laws;
mod order;
mod program;
mod readable;
mod reasons;
mod selections;
mod tasks;

pub use crate::order::write_order;
pub use crate::program::run;
pub use feature_account::{
    Feature, FeatureChoice, FeatureRecord, GroupRecord, Label, LineKind, LineRecord, LinkRecord,
    MemberRecord, PackageInfo, PackageRecord, PlatformTable, Premises, Rule, Standard, TargetInfo,
    TargetKind, TargetRecord, Verdict, WorkspaceInfo, WorkspaceRecord, check_account,
    check_explanation, rules,
};
pub use nextest_binaries::{
    BinaryInfo, BuildPlatform, FileLister, ListFault, Listing, ListingFault, TestLister,
};
pub use nextest_filter_syntax::{GenericGlob, ParsedExpr};
pub use record_files::{
    AccountFile, Field, Key, ReadError, read_account, read_choice, read_listings, read_record,
    read_table,
};
pub use record_writing::listings_line;
pub use test_select_changes::{Changed, ChangedError, changed_filter, changed_packages};
pub use test_select_checks::{
    GroupFilter, GroupTable, ParseSingleError, RecordError, RecordFilters, RecordRule, SelectError,
    SourceSpan, check_record, declared_graph, filter_context, record_filters,
};
pub use test_select_feature_laws::LineVerdict;
pub use test_select_features::{
    Account, FeaturesOn, WriteAccountError, account, dependency_order, explain, features_on,
    package_order, switched_on, write_account, write_explanation,
};
pub use test_select_files::{FileFault, FileSource};
pub use test_select_tests::{
    BinaryReason, LinkScope, Partition, Reason, Selection, TestReason, binaries_to_ask, by_binary,
    select, select_plain, why, write_report,
};
