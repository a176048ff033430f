//! The lines behind an edge, by what they declare.

ghost use Rattle.std.specs.Prelude.{◌≡◌};
ghost use Rattle.std.specs.List.{list_any};
ghost use Rattle.std.specs.Option.{option_copied};
ghost use Rattle.guppy_package_parts.specs.Lines.{line_at};
ghost use Rattle.guppy_feature_nodes.specs.Lines.{declares, declares_at, declares_kind_at};

use guppy_feature_demands::LinkDeclarations;
use guppy_package_parts::{LineRow, LinkRow};
use workspace_record::LineKind;

/// Whether one of the lines is of a kind and declares what is shown.
pub(crate) fn has_line(
    links: &[LinkRow],
    places: &[(usize, usize)],
    shown: LinkDeclarations,
    kind: LineKind,
) -> bool
    ensures { result ≡ list_any (declares_kind_at links.now shown kind) places.now }
{
    places.iter().any(|place| match line_at(links, *place) {
        Some(line) => line.kind == kind && declares(shown, line),
        None => false,
    })
}

/// Whether the line at a place is one of those that declare what is shown.
pub(crate) fn declares_at(links: &[LinkRow], shown: LinkDeclarations, place: (usize, usize)) -> bool
    ensures { result ≡ declares_at links.now shown place }
{
    match line_at(links, place) {
        Some(line) => declares(shown, line),
        None => false,
    }
}

fn declares(shown: LinkDeclarations, line: &LineRow) -> bool
    ensures { result ≡ declares shown line.now }
{
    if line.optional {
        shown.includes_optional()
    } else {
        shown.includes_required()
    }
}

/// The line at a place.
pub(crate) fn line_at<'a>(links: &'a [LinkRow], place: (usize, usize)) -> Option<&'a LineRow>
    ensures { option_copied result ≡ line_at links.entry.now place }
{
    let link = links.get(place.0)?;
    link.lines.get(place.1)
}
