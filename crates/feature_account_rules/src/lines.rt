//! Which lines count.

ghost use Rattle.std.specs.Prelude.{◌≡◌, option_map, string_bytes};
ghost use Rattle.feature_account_rules.specs.Lines.{is_in_force, counts};

use workspace_record::{LineKind, LineRecord, PlatformTable, RecordIndex};

/// Whether a line of a link from this package counts: it is in force on the table's platform, and a
/// development line is of a workspace package, as Cargo ignores those of other packages.
pub fn counts(
    index: &RecordIndex<'_>,
    table: &PlatformTable,
    source: &str,
    line: &LineRecord,
) -> bool
    ensures { result ≡ counts index.now table.now source.now line.now }
{
    let by_kind = match line.kind {
        LineKind::Normal | LineKind::Build => true,
        LineKind::Dev => index.is_workspace_package(source),
    };
    by_kind && is_in_force(table, &line.spec)
}

/// Whether a line for the platforms of this spec is in force on the table's platform.
pub fn is_in_force(table: &PlatformTable, spec: &Option<String>) -> bool
    ensures { result ≡ is_in_force table.now (option_map string_bytes spec.now) }
{
    match spec {
        None => true,
        Some(spec) => table.answer(spec.as_str()).unwrap_or(table.unknown_counts),
    }
}
