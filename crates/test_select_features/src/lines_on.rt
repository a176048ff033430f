//! Which lines of a link are on.

ghost use Rattle.std.specs.Prelude.{◌≡◌, ◌<◌, ◌&&◌, not, All, IfOk, filter, length};
ghost use Rattle.std.specs.List.{list_any};
ghost use Rattle.std.specs.List.Sorted.{IsStrictlyIncreasing};
ghost use Rattle.workspace_record.specs.LinesAt.{lines_at};
ghost use Rattle.feature_account.specs.Accounts.{concluded_set};
ghost use Rattle.feature_account_rules.specs.Lines.{counts_for};
ghost use Rattle.feature_account_rules.specs.RuleList.{line_start};
ghost use Rattle.workspace_record.specs.declared.kinds.LineKind.TheVariants.{Dev};
ghost use Rattle.guppy_package_parts.specs.Lines.{is_kind};
ghost use Rattle.test_select_features.specs.LinesOn.{line_is_on};

use crate::indexed_features::IndexedFeatures;
use feature_account_rules::is_in_force;
use std::alloc::{AllocError, Global};
use workspace_record::{LineKind, LineRecord, LinkRecord, PlatformTable};

/// The places of the link's lines that are on, in order, where its source is a workspace package or not.
pub(crate) fn places_on(
    alloc: Global,
    in_workspace: bool,
    features: &IndexedFeatures<'_>,
    table: &PlatformTable,
    link: &LinkRecord,
) -> Result<Vec<usize>, AllocError>
    ensures in_range { IfOk result (λ v. All (λ i. i < length link.now.lines) v.items) }
    ensures ascending { IfOk result (λ v. IsStrictlyIncreasing v.items) }
    ensures lines { IfOk result (λ v. lines_at link.now.lines v.items
        ≡ filter (line_is_on in_workspace features.now table.now link.now) link.now.lines) }
{
    let mut places = Vec::new(alloc);
    for (place, line) in link.lines.iter().enumerate() {
        if line_is_on(in_workspace, features, table, link, line) {
            places.push(place)?;
        }
    }
    Ok(places)
}

/// Whether a line of the link is on.
pub(crate) fn has_line_on(
    in_workspace: bool,
    features: &IndexedFeatures<'_>,
    table: &PlatformTable,
    link: &LinkRecord,
) -> bool
    ensures { result ≡ list_any (line_is_on in_workspace features.now table.now link.now)
        link.now.lines }
{
    link.lines.iter().any(|line| line_is_on(in_workspace, features, table, link, line))
}

/// Whether a normal or a build line of the link is on.
pub(crate) fn has_firm_line_on(
    in_workspace: bool,
    features: &IndexedFeatures<'_>,
    table: &PlatformTable,
    link: &LinkRecord,
) -> bool
    ensures { result ≡ list_any (λ line. not (is_kind Dev line)
        && line_is_on in_workspace features.now table.now link.now line) link.now.lines }
{
    link.lines.iter().any(|line| firm_line_is_on(in_workspace, features, table, link, line))
}

fn firm_line_is_on(
    in_workspace: bool,
    features: &IndexedFeatures<'_>,
    table: &PlatformTable,
    link: &LinkRecord,
    line: &LineRecord,
) -> bool
    ensures { result ≡ (not (is_kind Dev line.now)
        && line_is_on in_workspace features.now table.now link.now line.now) }
{
    line.kind != LineKind::Dev && line_is_on(in_workspace, features, table, link, line)
}

fn line_is_on(
    in_workspace: bool,
    features: &IndexedFeatures<'_>,
    table: &PlatformTable,
    link: &LinkRecord,
    line: &LineRecord,
) -> bool
    ensures { result ≡ line_is_on in_workspace features.now table.now link.now line.now }
{
    counts_for(in_workspace, line.kind)
        && is_in_force(table, &line.spec)
        && start_is_on(features, link, line)
}

/// Whether that is on from which the line is: the link's source, or the optional dependency of its name.
fn start_is_on(features: &IndexedFeatures<'_>, link: &LinkRecord, line: &LineRecord) -> bool
    ensures { result ≡ concluded_set features.now (line_start link.now line.now) }
{
    if line.optional {
        features.contains_dep(link.from.as_str(), link.name.as_str())
    } else {
        features.contains_base(link.from.as_str())
    }
}

fn counts_for(in_workspace: bool, kind: LineKind) -> bool
    ensures { result ≡ counts_for in_workspace kind }
{
    match kind {
        LineKind::Normal | LineKind::Build => true,
        LineKind::Dev => in_workspace,
    }
}
