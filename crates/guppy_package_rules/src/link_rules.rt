//! The rules on links.

ghost use Rattle.std.specs.Prelude.{◌≡◌, ◌==◌, ◌&&◌, IfOk, length, map, not, position};
ghost use Rattle.guppy_package_rules.specs.Places.{first_repeat};
ghost use Rattle.guppy_package_rules.specs.Found.{finds};
ghost use Rattle.guppy_package_rules.specs.Rules.{is_package_id, link_key, same_key};

use crate::distinct::first_repeat;
use crate::id_rules::package_id_set;
use indexmap::IndexSet;
use std::alloc::{AllocError, Global};
use workspace_record::{LinkRecord, PackageRecord};

/// The first link with an end that is no package.
pub(crate) fn first_unknown_end(
    alloc: Global,
    packages: &[PackageRecord],
    links: &[LinkRecord],
) -> Result<Option<usize>, AllocError>
    ensures { IfOk result (λ place. place
        ≡ position (λ l. not (is_package_id packages.now l.from && is_package_id packages.now l.to))
        links.now) }
{
    let ids = package_id_set(alloc, packages)?;
    let place = links.iter().position(|link| !has_known_ends(&ids, link));
    drop(ids);
    Ok(place)
}

fn has_known_ends(ids: &IndexSet<&str>, link: &LinkRecord) -> bool
    ensures { result ≡ (finds ids.now link.now.from && finds ids.now link.now.to) }
{
    ids.contains(link.from.as_str()) && ids.contains(link.to.as_str())
}

/// The first link that has both ends and the name of an earlier one.
pub(crate) fn first_repeated_link(
    alloc: Global,
    links: &[LinkRecord],
) -> Result<Option<usize>, AllocError>
    ensures { IfOk result (λ place. place ≡ first_repeat same_key (map link_key links.now)) }
{
    let mut keys: Vec<(&str, &str, &str)> = Vec::with_capacity(alloc, links.len())?;
    for link in links {
        keys.push((link.from.as_str(), link.to.as_str(), link.name.as_str()))?;
    }
    first_repeat(alloc, &keys)
}

/// The first link with no line.
pub(crate) fn first_empty_link(links: &[LinkRecord]) -> Option<usize>
    ensures { result ≡ position (λ l. length l.lines == 0) links.now }
{
    links.iter().position(|link| link.lines.is_empty())
}
