//! The test binaries of a workspace.

ghost use Rattle.std.specs.Prelude.{◌≡◌, ◌++◌, OnOk, IfOk, map, filter};
ghost use Rattle.feature_account_rules.specs.Lines.{is_member};
ghost use Rattle.guppy_package_rules.specs.Found.{finds};
ghost use Rattle.nextest_binaries.specs.Queries as asked;
ghost use Rattle.test_select_rules.specs.Asked.{binary_asked};
ghost use Rattle.test_select_rules.specs.Binaries.{binary_of, kind_text, may_have_tests, platform_of, binaries_of, binaries};
ghost use Rattle.test_select_rules.specs.BinaryView.{binary_view};
ghost use Rattle.test_select_rules.specs.Told.{told_by, told_of};

pub use crate::test_binary::TestBinary;
use guppy_package_rules::text_sets::text_set;
use indexmap::IndexSet;
use nextest_binaries::{
    BinaryInfo, BinaryQuery, BuildPlatform, PackageId, RustBinaryId, RustTestBinaryKind,
};
use std::alloc::{AllocError, Global};
use std::cmp::Ordering;
use workspace_record::{PackageRecord, TargetKind, TargetRecord, WorkspaceRecord};

impl TestBinary<'_> {
    /// What a lister is told of it.
    pub fn info(&self) -> BinaryInfo<'_>
        ensures told { told_by result ≡ told_of (binary_view self.now) }
    {
        let (row, target) = (self.row, self.target);
        BinaryInfo {
            id: self.id.as_str(),
            package_id: row.id.as_str(),
            name: target.name.as_str(),
            kind: target.kind,
            platform: platform_of(target.kind),
        }
    }

    /// What filters are asked about it.
    pub fn query(&self) -> BinaryQuery<'_>
        ensures asked { asked.binary_of result ≡ binary_asked (binary_view self.now) }
    {
        let target = self.target;
        BinaryQuery {
            package_id: &self.package_id,
            binary_id: &self.id,
            binary_name: target.name.as_str(),
            kind: &self.kind,
            platform: platform_of(target.kind),
        }
    }
}

impl PartialEq for TestBinary<'_> {
    ghost use Rattle.test_select_rules.specs.BinaryOrder.{same_id, same_id_laws};

    ghost eq = { same_id };

    ghost laws = { same_id_laws };

    fn eq(&self, other: &Self) -> bool {
        self.id == other.id
    }
}

impl Eq for TestBinary<'_> {
    ghost use Rattle.test_select_rules.specs.BinaryOrder.{same_id_equivalence};

    ghost laws = { same_id_equivalence };
}

impl PartialOrd for TestBinary<'_> {
    ghost use Rattle.std.specs.Ordering.{as_partial_cmp};
    ghost use Rattle.test_select_rules.specs.BinaryOrder.{id_cmp, id_cmp_laws};

    ghost partial_cmp = { as_partial_cmp id_cmp };

    ghost laws = { id_cmp_laws };

    fn partial_cmp(&self, other: &Self) -> Option<Ordering> {
        Some(self.cmp(other))
    }
}

impl Ord for TestBinary<'_> {
    ghost use Rattle.std.proofs.Common.{refl};
    ghost use Rattle.test_select_rules.specs.BinaryOrder.{id_cmp, id_cmp_total, ids_tie};

    ghost cmp = { id_cmp };

    ghost total = { id_cmp_total };

    ghost matches_partial_cmp = { λ a b. refl };

    ghost matches_eq = { ids_tie };

    fn cmp(&self, other: &Self) -> Ordering {
        self.id.as_str().cmp(other.id.as_str())
    }
}

/// The test binaries of the members, by package and then target.
pub fn binaries<'a>(
    alloc: Global,
    record: &'a WorkspaceRecord,
) -> Result<Vec<TestBinary<'a>>, AllocError>
    ensures { IfOk result (λ v. map binary_view v.items ≡ binaries record.entry.now) }
{
    let mut all = Vec::new(alloc);
    for row in member_packages(alloc, record, &record.packages)? {
        push_binaries(alloc, row, &mut all)?;
    }
    Ok(all)
}

fn member_packages<'a>(
    alloc: Global,
    record: &WorkspaceRecord,
    packages: &'a [PackageRecord],
) -> Result<Vec<&'a PackageRecord>, AllocError>
    ensures { IfOk result (λ v. map (λ p. p.now) v.items
        ≡ filter (λ p. is_member record.now p.id) packages.entry.now) }
{
    let ids = record.workspace.member_ids(alloc)?;
    let members = text_set(alloc, &ids)?;
    packages_among(alloc, &members, packages)
}

fn packages_among<'a>(
    alloc: Global,
    ids: &IndexSet<&str>,
    packages: &'a [PackageRecord],
) -> Result<Vec<&'a PackageRecord>, AllocError>
    ensures { IfOk result (λ v. map (λ p. p.now) v.items
        ≡ filter (λ p. finds ids.now p.id) packages.entry.now) }
{
    let mut among: Vec<&'a PackageRecord> = Vec::new(alloc);
    for row in packages {
        if has_id_among(ids, row) {
            among.push(row)?;
        }
    }
    Ok(among)
}

fn has_id_among(ids: &IndexSet<&str>, row: &PackageRecord) -> bool
    ensures { result ≡ finds ids.now row.now.id }
{
    ids.contains(row.id.as_str())
}

fn push_binaries<'a>(
    alloc: Global,
    row: &'a PackageRecord,
    all: &mut Vec<TestBinary<'a>>,
) -> Result<(), AllocError>
    ensures { OnOk result (map binary_view all.new.items
        ≡ map binary_view all.old.items ++ binaries_of row.entry.now) }
{
    for target in &row.targets {
        if target.tested && may_have_tests(target.kind) {
            all.push(binary_of(alloc, row, target)?)?;
        }
    }
    Ok(())
}

fn may_have_tests(kind: TargetKind) -> bool
    ensures { result ≡ may_have_tests kind }
{
    match kind {
        TargetKind::Lib
        | TargetKind::ProcMacro
        | TargetKind::Test
        | TargetKind::Bench
        | TargetKind::Bin
        | TargetKind::Example => true,
        TargetKind::BuildScript => false,
    }
}

/// The platform that targets of this kind are built for: proc macros run in the compiler.
pub fn platform_of(kind: TargetKind) -> BuildPlatform
    ensures { result ≡ platform_of kind }
{
    match kind {
        TargetKind::ProcMacro => BuildPlatform::Host,
        TargetKind::Lib
        | TargetKind::Test
        | TargetKind::Bench
        | TargetKind::Bin
        | TargetKind::Example
        | TargetKind::BuildScript => BuildPlatform::Target,
    }
}

/// How nextest calls the kind.
pub fn kind_text(kind: TargetKind) -> &'static str
    ensures { result.now ≡ kind_text kind }
{
    match kind {
        TargetKind::Lib => "lib",
        TargetKind::ProcMacro => "proc-macro",
        TargetKind::Test => "test",
        TargetKind::Bench => "bench",
        TargetKind::Bin => "bin",
        TargetKind::Example => "example",
        TargetKind::BuildScript => "build-script",
    }
}

fn binary_of<'a>(
    alloc: Global,
    row: &'a PackageRecord,
    target: &'a TargetRecord,
) -> Result<TestBinary<'a>, AllocError>
    ensures { IfOk result (λ b. binary_view b ≡ binary_of row.entry.now target.entry.now) }
{
    let package_id = PackageId::new(String::from_str(alloc, row.id.as_str())?);
    let kind = RustTestBinaryKind::new(String::from_str(alloc, kind_text(target.kind))?);
    let id = RustBinaryId::from_parts(alloc, row.name.as_str(), &kind, target.name.as_str())?;
    Ok(TestBinary {
        id,
        row,
        target,
        package_id,
        kind,
    })
}
