//! Links between the places of packages.

ghost use Rattle.std.specs.Prelude.{◌≡◌, IfOk, map, not};
ghost use Rattle.guppy_package_table.specs.LinkRows.{is_dev_only};
ghost use Rattle.guppy_package_table.specs.Tables.{link_between};

use crate::link_details::is_dev_only;
use crate::package_ids::place_of_id;
use guppy_package_parts::{LinkRow, PackageId};
use indexmap::IndexSet;
use numbered_graph::Link;
use std::alloc::{AllocError, Global};

/// Each link from the place of one package to that of the other.
pub(crate) fn numbered_links(
    alloc: Global,
    ids: &IndexSet<PackageId>,
    links: &[LinkRow],
) -> Result<Vec<Link>, AllocError>
    ensures { IfOk result (λ v. v.items ≡ map (link_between ids.now.keys) links.now) }
{
    let mut numbered = Vec::with_capacity(alloc, links.len())?;
    for row in links {
        numbered.push(Link {
            from: place_of_id(ids, row.from.as_str()),
            to: place_of_id(ids, row.to.as_str()),
        })?;
    }
    Ok(numbered)
}

/// A flag for each link: whether it has a normal or a build line.
pub(crate) fn firm_links(alloc: Global, links: &[LinkRow]) -> Result<Vec<bool>, AllocError>
    ensures { IfOk result (λ flags. flags.items ≡ map (λ l. not (is_dev_only l)) links.now) }
{
    let mut firm = Vec::with_capacity(alloc, links.len())?;
    for row in links {
        firm.push(!is_dev_only(row))?;
    }
    Ok(firm)
}
