//! Test binaries by their ids.

ghost use Rattle.std.specs.Prelude.{◌≡◌};
ghost use Rattle.test_select_rules.specs.Binaries.{kind_text};

use nextest_binaries::{PackageId, RustBinaryId, RustTestBinaryKind};
use workspace_record::{PackageRecord, TargetRecord};

// It holds its whole package: a contract on the id alone would let it point to another package with that id,
// which `binaries` takes, though the rules refuse such records.
/// A target of a package, which is built into a test binary under an id of its own. Binaries are
/// compared by their ids, which are distinct in a record that keeps the rules.
pub struct TestBinary<'a> {
    pub id: RustBinaryId,
    pub row: &'a PackageRecord,
    pub target: &'a TargetRecord,
    pub(crate) package_id: PackageId,
    pub(crate) kind: RustTestBinaryKind,
    ghost package: { package_id ≡ row.now.id },
    ghost called: { kind ≡ kind_text target.now.kind },
}

// Written out, so that a function that lets one go takes one step.
impl Drop for TestBinary<'_> {
    fn drop(self) {
        let TestBinary {
            id: _,
            row: _,
            target: _,
            package_id: _,
            kind: _,
        } = self;
    }
}
