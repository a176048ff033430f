//! The parts that the list of rules is made of, one by one: those who tell what a rule comes from make
//! the list of them again.

ghost use Rattle.std.specs.Prelude.{◌≡◌, IfOk};
ghost use Rattle.workspace_record.specs.Entries.{entry_value};
ghost use Rattle.feature_account_rules.specs.RuleList.{base_rules, given, link_rules, named_of, rules_of_entry};

use crate::feature_ref::FeatureRef;
use crate::lent_rule::copies_of;
use crate::rule::{Premises, Rule};
use crate::rule_list::{push_base_rules, push_link_rules, push_rules_of_entry};
use std::alloc::{AllocError, Global};
use workspace_record::{
    Feature, FeatureRecord, LinkRecord, PackageIndex, PackageRecord, PlatformTable, RecordIndex,
    entry_of,
};

/// The rule of a feature that the choice switches on by itself.
pub fn given_rule(conclusion: Feature) -> Rule
    ensures rule { result ≡ given conclusion }
{
    Rule {
        premises: Premises::None,
        conclusion,
    }
}

/// The rules by which the features of a package lead to it.
pub fn package_rules(alloc: Global, row: &PackageRecord) -> Result<Vec<Rule>, AllocError>
    ensures rules { IfOk result (λ v. v.items ≡ base_rules row.now) }
{
    let mut rules = Vec::new(alloc);
    push_base_rules(alloc, row, &mut rules)?;
    copies_of(alloc, &rules)
}

/// The rules of an entry of a feature of the package.
pub fn entry_rules<'a>(
    alloc: Global,
    index: &RecordIndex<'a>,
    table: &PlatformTable,
    owner: &PackageIndex<'a>,
    feature: &'a FeatureRecord,
    entry: &'a str,
) -> Result<Vec<Rule>, AllocError>
    ensures rules { IfOk result (λ v. v.items
        ≡ rules_of_entry index.now table.now owner.now
        (named_of owner.now.id feature.entry.now.name) (entry_value entry.entry.now)) }
{
    let row = owner.row();
    let premise = FeatureRef::named(row.id.as_str(), feature.name.as_str());
    let mut rules = Vec::new(alloc);
    push_rules_of_entry(
        alloc,
        index,
        table,
        owner,
        &premise,
        entry_of(entry),
        &mut rules,
    )?;
    copies_of(alloc, &rules)
}

/// The rules of the lines of a link.
pub fn link_rules(
    alloc: Global,
    index: &RecordIndex<'_>,
    table: &PlatformTable,
    link: &LinkRecord,
) -> Result<Vec<Rule>, AllocError>
    ensures rules { IfOk result (λ v. v.items ≡ link_rules index.now table.now link.now) }
{
    let mut rules = Vec::new(alloc);
    push_link_rules(alloc, index, table, link, &mut rules)?;
    copies_of(alloc, &rules)
}
