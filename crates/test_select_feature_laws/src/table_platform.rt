//! The platform of which a table tells.

use guppy_package_graph::Platform;
use workspace_record::PlatformTable;

/// The platform of which a table tells: it knows of a spec what the table answers.
#[derive(Clone, Copy, Debug)]
pub struct TablePlatform<'t> {
    pub table: &'t PlatformTable,
}

impl Platform for TablePlatform<'_> {
    ghost use Rattle.workspace_record.specs.Tables.{answer};

    ghost answers = { λ platform. answer platform.table.now };

    fn answer(&self, spec: &str) -> Option<bool> {
        self.table.answer(spec)
    }
}
