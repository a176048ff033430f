//! The rules on members.

ghost use Rattle.std.specs.Prelude.{◌≡◌, IfOk, map, not, position};
ghost use Rattle.std.specs.Ordering.{eq_by_cmp};
ghost use Rattle.std.specs.Str.{bytes_eq};
ghost use Rattle.guppy_package_rules.specs.Paths.{path_cmp};
ghost use Rattle.guppy_package_rules.specs.Places.{first_repeat};
ghost use Rattle.guppy_package_rules.specs.Rules.{earlier, is_member_id, is_package_id, member_name};
ghost use Rattle.guppy_package_rules.specs.Found.{HoldsNames};

use crate::distinct::{first_repeat_in_order, first_repeated_text};
use crate::id_rules::package_id_set;
use crate::paths::PathText;
use crate::text_sets::text_set;
use std::alloc::{AllocError, Global};
use std::collections::BTreeMap;
use workspace_record::{MemberRecord, PackageRecord, WorkspaceInfo};

/// The first member that is no package, or that stands at an earlier place.
pub(crate) fn first_bad_member(
    alloc: Global,
    packages: &[PackageRecord],
    workspace: &WorkspaceInfo,
) -> Result<Option<usize>, AllocError>
    ensures { IfOk result (λ place. place
        ≡ earlier (position (λ id. not (is_package_id packages.now id))
        (map (λ m. m.package_id) workspace.now.members))
        (first_repeat bytes_eq (map (λ m. m.package_id) workspace.now.members))) }
{
    let ids = workspace.member_ids(alloc)?;
    let known = package_id_set(alloc, packages)?;
    let unknown = ids.iter().position(|id| !known.contains(*id));
    drop(known);
    Ok(earlier(unknown, first_repeated_text(alloc, &ids)?))
}

fn earlier(a: Option<usize>, b: Option<usize>) -> Option<usize>
    ensures { result ≡ earlier a b }
{
    match (a, b) {
        (Some(a), Some(b)) => Some(a.min(b)),
        (Some(a), None) => Some(a),
        (None, b) => b,
    }
}

// The rule on members comes before, so each has a name: that of the first package with its id.
/// The first member whose package has the name of an earlier one's.
pub(crate) fn first_repeated_name(
    alloc: Global,
    packages: &[PackageRecord],
    members: &[MemberRecord],
) -> Result<Option<usize>, AllocError>
    ensures { IfOk result (λ place. place
        ≡ first_repeat bytes_eq (map (member_name packages.now) members.now)) }
{
    let names_by_id = package_names(alloc, packages)?;
    let mut names: Vec<&str> = Vec::new(alloc);
    for member in members {
        let name = names_by_id.get(member.package.as_str()).copied();
        names.push(name.unwrap_or(""))?;
    }
    first_repeated_text(alloc, &names)
}

/// The names of the packages by their ids: of several with one id that of the first.
fn package_names<'a>(
    alloc: Global,
    packages: &'a [PackageRecord],
) -> Result<BTreeMap<&'a str, &'a str>, AllocError>
    ensures { IfOk result (λ names. HoldsNames names packages.entry.now) }
{
    let mut names: BTreeMap<&'a str, &'a str> = BTreeMap::new(alloc);
    for row in packages {
        if !names.contains_key(row.id.as_str()) {
            names.insert(row.id.as_str(), row.name.as_str())?;
        }
    }
    Ok(names)
}

/// The first member whose path has the components of an earlier one's.
pub(crate) fn first_repeated_path(
    alloc: Global,
    members: &[MemberRecord],
) -> Result<Option<usize>, AllocError>
    ensures { IfOk result (λ place. place
        ≡ first_repeat (eq_by_cmp path_cmp) (map (λ m. m.path) members.now)) }
{
    let mut paths = Vec::new(alloc);
    for member in members {
        paths.push(PathText {
            text: member.path.as_str(),
        })?;
    }
    first_repeat_in_order(alloc, &paths)
}

/// The first default member that is no member.
pub(crate) fn first_unknown_default(
    alloc: Global,
    workspace: &WorkspaceInfo,
) -> Result<Option<usize>, AllocError>
    ensures { IfOk result (λ place. place
        ≡ position (λ id. not (is_member_id workspace.now id)) workspace.now.default_members) }
{
    let ids = workspace.member_ids(alloc)?;
    let members = text_set(alloc, &ids)?;
    let place = workspace
        .default_members
        .iter()
        .position(|id| !members.contains(id.as_str()));
    drop(members);
    Ok(place)
}
