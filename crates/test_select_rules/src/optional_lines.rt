//! The rule on links with optional lines.

ghost use Rattle.std.specs.Prelude.{◌≡◌, not, position};
ghost use Rattle.test_select_rules.specs.RecordRules.{has_optional_line, names_its_optional_lines};

use workspace_record::{LinkRecord, RecordIndex};

// The package is found by its id, so this rule comes behind those on ids and ends.
/// The first link with an optional line whose name is not among its source's optional dependencies.
pub(crate) fn first_unnamed_link(index: &RecordIndex<'_>) -> Option<usize>
    ensures { result ≡ position (λ l. not (names_its_optional_lines index.now l)) index.now.links }
{
    let row = index.record();
    row.links
        .iter()
        .position(|link| !names_its_optional_lines(index, link))
}

fn names_its_optional_lines(index: &RecordIndex<'_>, link: &LinkRecord) -> bool
    ensures { result ≡ names_its_optional_lines index.now link.now }
{
    !has_optional_line(link)
        || match index.package_of(link.from.as_str()) {
            None => false,
            Some(source) => source.has_optional(link.name.as_str()),
        }
}

fn has_optional_line(link: &LinkRecord) -> bool
    ensures { result ≡ has_optional_line link.now }
{
    link.lines.iter().any(|line| line.optional)
}
