//! The names of a record's groups, for filters that may name them.

ghost use Rattle.std.specs.Prelude.{◌≡◌, ◌↔◌, Contains, IfOk, map};
ghost use Rattle.list_facts.specs.Texts.{texts};
ghost use Rattle.workspace_record.specs.Records.{Text};
ghost use Rattle.test_select_checks.specs.Groups.{AreGroupsOf};

use nextest_filtering::KnownGroups;
use std::alloc::{AllocError, Global};
use std::collections::BTreeSet;
use workspace_record::{GroupRecord, WorkspaceRecord};

/// The names of the record's groups.
pub fn known_groups(alloc: Global, record: &WorkspaceRecord) -> Result<KnownGroups, AllocError>
    ensures groups { IfOk result (AreGroupsOf record.now) }
{
    let custom_groups = names_of(alloc, &record.groups)?;
    Ok(KnownGroups::Known { custom_groups })
}

fn names_of(alloc: Global, groups: &[GroupRecord]) -> Result<BTreeSet<String>, AllocError>
    ensures { IfOk result (λ s. (name : Text) → Contains (texts s.keys) name
        ↔ Contains (map (λ g. g.name) groups.now) name) }
{
    let mut names = BTreeSet::new(alloc);
    for group in groups {
        let name = String::from_str(alloc, group.name.as_str())?;
        names.insert(name)?;
    }
    Ok(names)
}
