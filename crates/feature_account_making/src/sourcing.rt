//! The rules of a record, a choice and a table, each with what it comes from.

ghost use Rattle.std.specs.Prelude.{◌≡◌, ◌++◌, [], IfOk, OnOk, flat_map, map};
ghost use Rattle.feature_account_rules.specs.RuleList.{given};
ghost use Rattle.feature_account_making.specs.SourceViews.{source_view, sourced_view};
ghost use Rattle.feature_account_making.specs.Sources.{Chosen, from_source, sourced_entries, sourced_entry, sourced_feature, sourced_link, sourced_package, sourced_rules};

use crate::rule_source::RuleSource;
use crate::sourced_rule::SourcedRule;
use feature_account::{Rule, chosen_features};
use feature_account_rules::parts::{entry_rules, given_rule, link_rules, package_rules};
use std::alloc::{AllocError, Global};
use workspace_record::{
    Feature, FeatureChoice, FeatureRecord, LinkRecord, PackageIndex, PlatformTable, RecordIndex,
    WorkspaceRecord,
};

// Several rules may be equal and come from different entries; each keeps its own.
/// The rules that `feature_account::rules` lists, in its order, each with what it comes from.
///
/// The work grows as that of `rules`.
pub fn sourced_rules<'r>(
    alloc: Global,
    record: &'r WorkspaceRecord,
    choice: &FeatureChoice,
    table: &PlatformTable,
) -> Result<Vec<SourcedRule<'r>>, AllocError>
    ensures sourced { IfOk result (λ v. map sourced_view v.items
        ≡ sourced_rules record.entry.now choice.now table.now) }
{
    let index = RecordIndex::of(alloc, record)?;
    let mut sourced = Vec::new(alloc);
    let pushed = push_rules(alloc, &index, choice, table, &mut sourced);
    pushed.and(Ok(sourced))
}

/// Adds all rules to an empty list.
fn push_rules<'r>(
    alloc: Global,
    index: &RecordIndex<'r>,
    choice: &FeatureChoice,
    table: &PlatformTable,
    sourced: &mut Vec<SourcedRule<'r>>,
) -> Result<(), AllocError>
    requires { sourced.old.items ≡ [] }
    ensures { OnOk result (map sourced_view sourced.new.items
        ≡ sourced_rules index.now choice.now table.now) }
{
    let record = index.record();
    push_chosen(chosen_features(alloc, record, choice)?, sourced)?;
    push_packages(alloc, index.packages(), sourced)?;
    push_packages_entries(alloc, index, table, index.packages(), sourced)?;
    push_links(alloc, index, table, &record.links, sourced)
}

/// Adds the rules, which come from the source.
fn push_from<'r>(
    source: RuleSource<'r>,
    rules: Vec<Rule>,
    sourced: &mut Vec<SourcedRule<'r>>,
) -> Result<(), AllocError>
    ensures { OnOk result (map sourced_view sourced.new.items
        ≡ map sourced_view sourced.old.items
        ++ from_source (source_view source.entry) rules.items) }
{
    for rule in rules {
        sourced.push(SourcedRule { source, rule })?;
    }
    Ok(())
}

fn push_chosen(features: Vec<Feature>, sourced: &mut Vec<SourcedRule<'_>>) -> Result<(), AllocError>
    ensures { OnOk result (map sourced_view sourced.new.items
        ≡ map sourced_view sourced.old.items ++ from_source Chosen (map given features.items)) }
{
    for feature in features {
        let rule = given_rule(feature);
        sourced.push(SourcedRule {
            source: RuleSource::Choice,
            rule,
        })?;
    }
    Ok(())
}

fn push_packages(
    alloc: Global,
    packages: &[PackageIndex<'_>],
    sourced: &mut Vec<SourcedRule<'_>>,
) -> Result<(), AllocError>
    ensures { OnOk result (map sourced_view sourced.new.items
        ≡ map sourced_view sourced.old.items ++ flat_map sourced_package packages.now) }
{
    for owner in packages {
        let rules = package_rules(alloc, owner.row())?;
        push_from(RuleSource::Package, rules, sourced)?;
    }
    Ok(())
}

fn push_packages_entries<'r>(
    alloc: Global,
    index: &RecordIndex<'r>,
    table: &PlatformTable,
    packages: &[PackageIndex<'r>],
    sourced: &mut Vec<SourcedRule<'r>>,
) -> Result<(), AllocError>
    ensures { OnOk result (map sourced_view sourced.new.items
        ≡ map sourced_view sourced.old.items
        ++ flat_map (sourced_entries index.now table.now) packages.now) }
{
    for owner in packages {
        push_entries(alloc, index, table, owner, sourced)?;
    }
    Ok(())
}

fn push_entries<'r>(
    alloc: Global,
    index: &RecordIndex<'r>,
    table: &PlatformTable,
    owner: &PackageIndex<'r>,
    sourced: &mut Vec<SourcedRule<'r>>,
) -> Result<(), AllocError>
    ensures { OnOk result (map sourced_view sourced.new.items
        ≡ map sourced_view sourced.old.items ++ sourced_entries index.now table.now owner.now) }
{
    let row = owner.row();
    for feature in &row.features {
        push_feature(alloc, index, table, owner, feature, sourced)?;
    }
    Ok(())
}

fn push_feature<'r>(
    alloc: Global,
    index: &RecordIndex<'r>,
    table: &PlatformTable,
    owner: &PackageIndex<'r>,
    feature: &'r FeatureRecord,
    sourced: &mut Vec<SourcedRule<'r>>,
) -> Result<(), AllocError>
    ensures { OnOk result (map sourced_view sourced.new.items
        ≡ map sourced_view sourced.old.items
        ++ sourced_feature index.now table.now owner.now feature.entry.now) }
{
    for entry in &feature.enables {
        push_entry(alloc, index, table, owner, feature, entry.as_str(), sourced)?;
    }
    Ok(())
}

fn push_entry<'r>(
    alloc: Global,
    index: &RecordIndex<'r>,
    table: &PlatformTable,
    owner: &PackageIndex<'r>,
    feature: &'r FeatureRecord,
    entry: &'r str,
    sourced: &mut Vec<SourcedRule<'r>>,
) -> Result<(), AllocError>
    ensures { OnOk result (map sourced_view sourced.new.items
        ≡ map sourced_view sourced.old.items
        ++ sourced_entry index.now table.now owner.now feature.entry.now entry.entry.now) }
{
    let row = owner.row();
    let source = RuleSource::Entry {
        package: row.id.as_str(),
        feature: feature.name.as_str(),
        entry,
    };
    let rules = entry_rules(alloc, index, table, owner, feature, entry)?;
    push_from(source, rules, sourced)
}

fn push_links<'r>(
    alloc: Global,
    index: &RecordIndex<'r>,
    table: &PlatformTable,
    links: &'r [LinkRecord],
    sourced: &mut Vec<SourcedRule<'r>>,
) -> Result<(), AllocError>
    ensures { OnOk result (map sourced_view sourced.new.items
        ≡ map sourced_view sourced.old.items
        ++ flat_map (sourced_link index.now table.now) links.entry.now) }
{
    for link in links {
        push_link(alloc, index, table, link, sourced)?;
    }
    Ok(())
}

fn push_link<'r>(
    alloc: Global,
    index: &RecordIndex<'r>,
    table: &PlatformTable,
    link: &'r LinkRecord,
    sourced: &mut Vec<SourcedRule<'r>>,
) -> Result<(), AllocError>
    ensures { OnOk result (map sourced_view sourced.new.items
        ≡ map sourced_view sourced.old.items ++ sourced_link index.now table.now link.entry.now) }
{
    let source = RuleSource::Line {
        package: link.from.as_str(),
        name: link.name.as_str(),
    };
    let rules = link_rules(alloc, index, table, link)?;
    push_from(source, rules, sourced)
}
