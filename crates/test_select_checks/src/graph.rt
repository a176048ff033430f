//! The graph of a record's packages, and the packages over which its filters are matched.

ghost use Rattle.std.specs.Prelude.{◌≡◌, IfErr, IfOk, map};
ghost use Rattle.guppy_package_rules.specs.Kept.{AreKept};
ghost use Rattle.guppy_package_rules.specs.Refusals.{IsRefusal};
ghost use Rattle.guppy_package_table.specs.Tables.{ids_of};
ghost use Rattle.nextest_filtering.specs.Contexts.{IsContextOf};
ghost use Rattle.nextest_filtering.specs.ContextViews.{listed_as};
ghost use Rattle.test_select_checks.specs.Contexts.{IsDeclaredGraph, IsNeeded};

use guppy_package_graph::{PackageGraph, PackageGraphError, PackageId};
use nextest_filtering::ParseContext;
use std::alloc::{AllocError, Global};
use std::rc::Rc;
use workspace_record::WorkspaceRecord;

/// The package graph of the record, over rows of its own, or the first rule on packages, links and
/// members that the record breaks.
pub fn graph_of(alloc: Global, record: &WorkspaceRecord) -> Result<PackageGraph, PackageGraphError>
    ensures built { IfOk result (IsDeclaredGraph record.now) }
    ensures kept { IfOk result (λ _. AreKept record.now.packages record.now.links
        record.now.workspace) }
    ensures refused { IfErr result (IsRefusal record.now.packages record.now.links
        record.now.workspace) }
{
    PackageGraph::from_shared(alloc, shared_copy(alloc, record)?)
}

/// The same of a record that is shared, over its rows, so that none is copied.
pub fn shared_graph_of(
    alloc: Global,
    record: &Rc<WorkspaceRecord>,
) -> Result<PackageGraph, PackageGraphError>
    ensures built { IfOk result (IsDeclaredGraph «record».now.value) }
    ensures kept { IfOk result (λ _. AreKept «record».now.value.packages «record».now.value.links
        «record».now.value.workspace) }
    ensures refused { IfErr result (IsRefusal «record».now.value.packages «record».now.value.links
        «record».now.value.workspace) }
{
    PackageGraph::from_shared(alloc, record.clone()?)
}

fn shared_copy(alloc: Global, record: &WorkspaceRecord) -> Result<Rc<WorkspaceRecord>, AllocError>
    ensures { IfOk result (λ copy. copy.value ≡ record.now) }
{
    let copy = Rc::new(alloc, record.copy(alloc)?)?;
    Ok(copy)
}

/// The context of filters whose names are matched over the packages to which declared links lead from
/// the members, whose paths follow the links of `followed`, a graph of the same packages, and in which
/// these features are said to be on.
pub fn filter_context<'g>(
    alloc: Global,
    declared: &PackageGraph,
    followed: &'g PackageGraph,
    on: &[(PackageId, String)],
) -> Result<ParseContext<'g>, AllocError>
    requires same { ids_of followed.now.packages ≡ ids_of declared.now.packages }
    ensures context { IfOk result (IsContextOf followed.now declared.now (IsNeeded declared.now)) }
    ensures on { IfOk result (λ cx. cx.on ≡ map listed_as on.now) }
{
    let query = declared.query_workspace(alloc)?;
    let needed = query.resolve(alloc)?;
    ParseContext::with_features(alloc, followed, &needed, on)
}
