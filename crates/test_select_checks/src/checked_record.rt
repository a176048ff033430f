//! A record that keeps the rules, with what is found in it while it is tested.

ghost use Rattle.std.specs.Prelude.{◌≡◌, Err, IfErr, IfOk, Ok, map};
ghost use Rattle.guppy_package_rules.specs.Kept.{AreKept};
ghost use Rattle.test_select_rules.specs.Binaries.{binaries};
ghost use Rattle.test_select_rules.specs.BinaryView.{binary_view};
ghost use Rattle.test_select_checks.specs.Checks.{ChecksRecord, IsChecked};
ghost use Rattle.test_select_checks.specs.Contexts.{IsDeclaredGraph};

use crate::checking::check_filters;
use crate::graph::{graph_of, shared_graph_of};
use crate::record_error::RecordError;
use guppy_package_graph::PackageGraph;
use std::alloc::Global;
use std::marker::Model;
use std::rc::Rc;
use test_select_rules::binaries::{TestBinary, binaries};
use test_select_rules::first_broken_record_rule;
use workspace_record::{RecordIndex, WorkspaceRecord};

/// A record that keeps the rules and whose filters are accepted, with what was found in it while it was
/// tested: the graph of its packages, its features and links by their names, and its test binaries. In
/// contracts it is the record.
pub struct CheckedRecord<'r> {
    index: RecordIndex<'r>,
    graph: PackageGraph,
    binaries: Vec<TestBinary<'r>>,
}

// Written out, so that a function that lets one go takes one step.
impl Drop for CheckedRecord<'_> {
    fn drop(self) {
        let CheckedRecord {
            index: _,
            graph: _,
            binaries: _,
        } = self;
    }
}

impl<'r> Model for CheckedRecord<'r> {
    ghost use Rattle.std.specs.Prelude.{map};
    ghost use Rattle.test_select_rules.specs.BinaryView.{binary_view};
    ghost use Rattle.workspace_record.specs.Records.{Workspace};
    ghost use Rattle.test_select_checks.specs.CheckedRecords.{AreFoundIn};

    ghost Value = { Workspace };

    ghost view = { λ c. c.index };

    ghost invariant = { λ c. AreFoundIn c.index c.graph (map binary_view c.binaries.items) };
}

impl<'r> CheckedRecord<'r> {
    /// The record, once each rule is tested in turn, that on filters last; or the first broken rule, at its
    /// first place, or the first refused filter, with all its faults.
    pub fn of(alloc: Global, record: &'r WorkspaceRecord) -> Result<CheckedRecord<'r>, RecordError>
        ensures checked { ChecksRecord «record».entry.now result }
    {
        let graph = graph_of(alloc, record)?;
        CheckedRecord::over(alloc, record, graph)
    }

    /// The same of a record that is shared: its graph is over the same rows, in place of a copy.
    pub fn of_shared(
        alloc: Global,
        record: &'r Rc<WorkspaceRecord>,
    ) -> Result<CheckedRecord<'r>, RecordError>
        ensures checked { ChecksRecord «record».entry.now.value result }
    {
        let graph = shared_graph_of(alloc, record)?;
        CheckedRecord::over(alloc, record.as_ref(), graph)
    }

    /// The same with the graph of the record's packages.
    fn over(
        alloc: Global,
        record: &'r WorkspaceRecord,
        graph: PackageGraph,
    ) -> Result<CheckedRecord<'r>, RecordError>
        requires kept { AreKept «record».now.packages «record».now.links «record».now.workspace }
        requires declared { IsDeclaredGraph «record».now graph }
        ensures { ChecksRecord «record».entry.now result }
    {
        let index = RecordIndex::of(alloc, record)?;
        match checked_binaries(alloc, &index, &graph) {
            Ok(binaries) => Ok(CheckedRecord {
                index,
                graph,
                binaries,
            }),
            Err(refused) => Err(refused),
        }
    }

    /// The record.
    pub fn record(&self) -> &'r WorkspaceRecord
        ensures value { result.now ≡ self.now }
        ensures checked { IsChecked self.now (Ok tt) }
    {
        self.index.record()
    }

    /// What is found in the record at once.
    pub fn index(&self) -> &RecordIndex<'r>
        ensures value { result.now ≡ self.now }
    {
        &self.index
    }

    /// The graph of the record's packages.
    pub fn graph(&self) -> &PackageGraph
        ensures declared { IsDeclaredGraph self.now result.now }
    {
        &self.graph
    }

    /// The test binaries of the record, by package and then target.
    pub fn binaries(&self) -> &[TestBinary<'r>]
        ensures binaries { map binary_view result.now ≡ binaries self.now }
    {
        &self.binaries
    }

    /// What is found in the record at once; all else is let go.
    pub fn into_index(self) -> RecordIndex<'r>
        ensures value { result ≡ self.entry }
    {
        let CheckedRecord {
            index,
            graph: _,
            binaries: _,
        } = self;
        index
    }

    /// The test binaries, in the same order; all else is let go.
    pub fn into_binaries(self) -> Vec<TestBinary<'r>>
        ensures binaries { map binary_view result.items ≡ binaries self.entry }
    {
        let CheckedRecord {
            index: _,
            graph: _,
            binaries,
        } = self;
        binaries
    }
}

/// The test binaries of a record, once the further rules and that on filters are tested. The rules on
/// packages, links and members are kept.
fn checked_binaries<'r>(
    alloc: Global,
    index: &RecordIndex<'r>,
    graph: &PackageGraph,
) -> Result<Vec<TestBinary<'r>>, RecordError>
    requires kept { AreKept index.now.packages index.now.links index.now.workspace }
    requires declared { IsDeclaredGraph index.now graph.now }
    ensures binaries { IfOk result (λ all. map binary_view all.items ≡ binaries index.now) }
    ensures checked { IfOk result (λ _. IsChecked index.now (Ok tt)) }
    ensures refused { IfErr result (λ e. IsChecked index.now (Err e)) }
{
    let binaries = binaries(alloc, index.record())?;
    match check_parts(alloc, index, graph, &binaries) {
        Ok(()) => Ok(binaries),
        Err(refused) => Err(refused),
    }
}

/// Tests the rules on optional lines, features, binaries and names of groups in turn, and then that on
/// filters. The rules on packages, links and members are kept.
fn check_parts(
    alloc: Global,
    index: &RecordIndex<'_>,
    graph: &PackageGraph,
    all: &[TestBinary<'_>],
) -> Result<(), RecordError>
    requires kept { AreKept index.now.packages index.now.links index.now.workspace }
    requires declared { IsDeclaredGraph index.now graph.now }
    requires binaries { map binary_view all.now ≡ binaries index.now }
    ensures { IsChecked index.now result }
{
    if let Some((rule, place)) = first_broken_record_rule(alloc, index, all)? {
        return Err(RecordError::Broken { rule, place });
    }
    check_filters(alloc, index.record(), graph)
}
