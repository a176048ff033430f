//! The whole record.

ghost use Rattle.std.specs.Prelude.{◌≡◌, ◌≢◌, [], All, AllPairs, IfErr, IfOk, None, Some, map, true};
ghost use Rattle.std.specs.List.{list_all};
ghost use Rattle.cargo_record.specs.Kept as spec;
ghost use Rattle.cargo_record.specs.Lines.{AreApart, AreLinesOf, IsDeclaredLink, line_rows, unlinked};
ghost use Rattle.cargo_record.specs.Members.{IsWorkspaceOf, are_names};
ghost use Rattle.cargo_record.specs.Refused.{RefusesRecord};

use crate::fault::RecordFault;
use crate::lines::links_of;
use crate::members::{RequestedMembers, workspace_of};
use crate::packages::kept_rows;
use cargo_metadata::Metadata;
use std::alloc::Global;
use workspace_record::WorkspaceRecord;

/// The record of a workspace, of which these members are asked about. It has the packages that Cargo
/// lists, in order, without those targets that require a feature of another package, and a line for
/// each dependency that was resolved.
pub fn record_of(
    alloc: Global,
    metadata: &Metadata,
    wanted: RequestedMembers<'_>,
) -> Result<WorkspaceRecord, RecordFault>
    ensures packages { IfOk result (λ w. w.packages ≡ map spec.kept_row metadata.now.packages) }
    ensures workspace { IfOk result (λ w. IsWorkspaceOf metadata.now wanted.entry w.workspace) }
    ensures lines { IfOk result (λ w. AreLinesOf (unlinked w) metadata.now (line_rows w.links)) }
    ensures links { IfOk result (λ w. All (IsDeclaredLink metadata.now.packages) w.links) }
    ensures apart { IfOk result (λ w. AllPairs (λ p q. p.row.id ≢ q.row.id) metadata.now.packages
        → AreApart w.links) }
    ensures own { IfOk result (λ w. list_all (spec.owns_targets (unlinked w)) metadata.now.packages
        ≡ true) }
    ensures rest { IfOk result (λ w. (w.groups ≡ []) × (w.default_filter ≡ None)) }
    ensures refused { IfErr result (RefusesRecord metadata.now wanted.entry) }
    ensures askable { IfOk result (λ _. (metadata.now.format ≡ Some 1)
        × (are_names metadata.now wanted.entry ≡ true)) }
{
    let Some(1) = metadata.format else {
        return Err(RecordFault::Format);
    };
    let workspace = workspace_of(alloc, metadata, wanted)?;
    let packages = kept_rows(alloc, &metadata.packages)?;
    let rows = WorkspaceRecord {
        packages,
        links: Vec::new(alloc),
        workspace,
        groups: Vec::new(alloc),
        default_filter: None,
    };
    let links = links_of(alloc, &rows, metadata)?;
    Ok(WorkspaceRecord { links, ..rows })
}
