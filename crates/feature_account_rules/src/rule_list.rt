//! The rules of a record, a choice and a table.

ghost use Rattle.std.specs.Prelude.{◌≡◌, [], ◌∷◌, ◌++◌, OnOk, IfOk, map, filter, string_bytes, if◌then◌else◌};
ghost use Rattle.std.specs.List.{flat_map};
ghost use Rattle.workspace_record.specs.EntryView.{entry_view};
ghost use Rattle.feature_account_rules.specs.Lines.{counts, counting_lines};
ghost use Rattle.feature_account_rules.specs.RuleList.{given, implies, named_of, dep_of, has_feature, has_optional, base_rules, is_slash_link, slash_lines, dependency_features, strong_targets, strong_features, weak_rule, weak_rules, rules_of_entry, feature_rules, entry_rules, line_start, line_features, line_rules, link_rules, rule_list};

use crate::feature_ref::FeatureRef;
use crate::lent_rule::{LentRule, copies_of};
use crate::lines::counts;
use crate::own_features::{DEFAULT, chosen_by, own_features};
use crate::rule::Rule;
use std::alloc::{AllocError, Global};
use workspace_record::{
    Entry, FeatureChoice, FeatureRecord, LineRecord, LinkRecord, PackageIndex, PackageRecord,
    PlatformTable, RecordIndex, WorkspaceRecord, entry_of,
};

/// The rules by which Cargo switches features on, numbered from 0: those of the choice, then those
/// of each package's features, then those of the features' entries, then those of the links.
///
/// A rule whose conclusion is among its premises stays in the list. Of packages with one id the
/// first counts. Of a link's target that is not found only the base feature is known.
///
/// The work grows with the packages, features, entries, links and lines, and with the rules: packages,
/// features and links are found by maps.
pub fn rules(
    alloc: Global,
    record: &WorkspaceRecord,
    choice: &FeatureChoice,
    table: &PlatformTable,
) -> Result<Vec<Rule>, AllocError>
    ensures listed { IfOk result (λ v. v.items ≡ rule_list record.now choice.now table.now) }
{
    let index = RecordIndex::of(alloc, record)?;
    rules_in(alloc, &index, choice, table)
}

/// The same rules, where what is found in the record is there already.
pub fn rules_in(
    alloc: Global,
    index: &RecordIndex<'_>,
    choice: &FeatureChoice,
    table: &PlatformTable,
) -> Result<Vec<Rule>, AllocError>
    ensures listed { IfOk result (λ v. v.items ≡ rule_list index.now choice.now table.now) }
{
    let rules = lent_rules(alloc, index, choice, table)?;
    copies_of(alloc, &rules)
}

// Packages, members, features and links are found in an index, which contracts see as its record: so the code
// can be read beside its definition. A repeated feature or optional name gives its rules once for each entry,
// a repeated `default` is chosen once, and a rule whose conclusion is among its premises keeps its number.
/// The same rules, whose texts the record and the choice lend.
pub fn lent_rules<'a>(
    alloc: Global,
    index: &RecordIndex<'a>,
    choice: &'a FeatureChoice,
    table: &PlatformTable,
) -> Result<Vec<LentRule<'a>>, AllocError>
    ensures listed { IfOk result (λ v. v.items ≡ rule_list index.now choice.entry.now table.now) }
{
    let mut rules = Vec::new(alloc);
    let links = &index.record().links;
    push_given(chosen_by(alloc, index, choice)?, &mut rules)?;
    push_packages_base_rules(alloc, index.packages(), &mut rules)?;
    push_packages_entry_rules(alloc, index, table, index.packages(), &mut rules)?;
    push_links_rules(alloc, index, table, links, &mut rules)?;
    Ok(rules)
}

fn push_given<'a>(
    features: Vec<FeatureRef<'a>>,
    rules: &mut Vec<LentRule<'a>>,
) -> Result<(), AllocError>
    ensures { OnOk result (rules.new.items ≡ rules.old.items ++ map given features.entry.items) }
{
    for conclusion in features {
        rules.push(LentRule::given(conclusion))?;
    }
    Ok(())
}

fn push_implications<'a>(
    premise: &FeatureRef<'a>,
    conclusions: Vec<FeatureRef<'a>>,
    rules: &mut Vec<LentRule<'a>>,
) -> Result<(), AllocError>
    ensures { OnOk result (rules.new.items
        ≡ rules.old.items ++ map (implies premise.now) conclusions.entry.items) }
{
    for conclusion in conclusions {
        rules.push(LentRule::implies(premise.again(), conclusion))?;
    }
    Ok(())
}

pub(crate) fn push_base_rules<'a>(
    alloc: Global,
    row: &'a PackageRecord,
    rules: &mut Vec<LentRule<'a>>,
) -> Result<(), AllocError>
    ensures { OnOk result (rules.new.items ≡ rules.old.items ++ base_rules row.entry.now) }
{
    for feature in own_features(alloc, row)? {
        let base = FeatureRef::base(row.id.as_str());
        rules.push(LentRule::implies(feature, base))?;
    }
    Ok(())
}

fn push_packages_base_rules<'a>(
    alloc: Global,
    packages: &[PackageIndex<'a>],
    rules: &mut Vec<LentRule<'a>>,
) -> Result<(), AllocError>
    ensures { OnOk result (rules.new.items ≡ rules.old.items ++ flat_map base_rules packages.now) }
{
    for owner in packages {
        push_base_rules(alloc, owner.row(), rules)?;
    }
    Ok(())
}

fn counting_lines<'a>(
    alloc: Global,
    index: &RecordIndex<'_>,
    table: &PlatformTable,
    link: &'a LinkRecord,
) -> Result<Vec<&'a LineRecord>, AllocError>
    ensures { IfOk result (λ v. map (λ l. l.now) v.items
        ≡ counting_lines index.now table.now link.entry.now) }
{
    let mut counting: Vec<&'a LineRecord> = Vec::new(alloc);
    for line in &link.lines {
        if counts(index, table, link.from.as_str(), line) {
            counting.push(line)?;
        }
    }
    Ok(counting)
}

/// An entry with a slash of a feature of a owner.
#[derive(Clone, Copy)]
struct SlashEntry<'a> {
    row: &'a PackageRecord,
    name: &'a str,
    feature: &'a str,
}

fn slash_lines<'a>(
    alloc: Global,
    index: &RecordIndex<'_>,
    table: &PlatformTable,
    entry: SlashEntry<'_>,
    link: &'a LinkRecord,
) -> Result<Vec<&'a LineRecord>, AllocError>
    ensures { IfOk result (λ v. map (λ l. l.now) v.items
        ≡ slash_lines index.now table.now entry.entry.row.now entry.entry.name.now
        entry.entry.feature.now link.entry.now) }
{
    if is_slash_link(index, entry, link) {
        counting_lines(alloc, index, table, link)
    } else {
        Ok(Vec::new(alloc))
    }
}

fn is_slash_link(index: &RecordIndex<'_>, entry: SlashEntry<'_>, link: &LinkRecord) -> bool
    ensures { result ≡ is_slash_link index.now entry.entry.row.now entry.entry.name.now
        entry.entry.feature.now link.now }
{
    let row = entry.row;
    row.id == link.from
        && entry.name == link.name.as_str()
        && match index.package_of(link.to.as_str()) {
            Some(target) => target.has_feature(entry.feature),
            None => false,
        }
}

fn push_dependency_features<'a>(
    owner: &PackageIndex<'a>,
    name: &'a str,
    features: &mut Vec<FeatureRef<'a>>,
) -> Result<(), AllocError>
    ensures { OnOk result (features.new.items
        ≡ features.old.items ++ dependency_features owner.now name.entry.now) }
{
    let row = owner.row();
    if owner.has_optional(name) {
        features.push(FeatureRef::dep(row.id.as_str(), name))?;
        if owner.has_feature(name) {
            features.push(FeatureRef::named(row.id.as_str(), name))?;
        }
    }
    Ok(())
}

fn push_strong_targets<'a>(
    alloc: Global,
    index: &RecordIndex<'_>,
    table: &PlatformTable,
    entry: SlashEntry<'a>,
    link: &'a LinkRecord,
    features: &mut Vec<FeatureRef<'a>>,
) -> Result<(), AllocError>
    ensures { OnOk result (features.new.items
        ≡ features.old.items ++ strong_targets index.now table.now entry.entry.row.now
        entry.entry.name.now entry.entry.feature.now link.entry.now) }
{
    let lines = slash_lines(alloc, index, table, entry, link)?;
    for _line in &lines {
        features.push(FeatureRef::named(link.to.as_str(), entry.feature))?;
    }
    Ok(())
}

fn push_links_targets<'a>(
    alloc: Global,
    index: &RecordIndex<'a>,
    table: &PlatformTable,
    entry: SlashEntry<'a>,
    features: &mut Vec<FeatureRef<'a>>,
) -> Result<(), AllocError>
    ensures { OnOk result (features.new.items
        ≡ features.old.items ++ flat_map
        (strong_targets index.now table.now entry.entry.row.now entry.entry.name.now
        entry.entry.feature.now) index.now.links) }
{
    let row = entry.row;
    match index.links_named(row.id.as_str(), entry.name) {
        Some(links) => {
            for link in links {
                push_strong_targets(alloc, index, table, entry, link.row, features)?;
            }
            Ok(())
        }
        None => Ok(()),
    }
}

fn strong_features<'a>(
    alloc: Global,
    index: &RecordIndex<'a>,
    table: &PlatformTable,
    owner: &PackageIndex<'a>,
    name: &'a str,
    feature: &'a str,
) -> Result<Vec<FeatureRef<'a>>, AllocError>
    ensures { IfOk result (λ v. v.items
        ≡ strong_features index.now table.now owner.now name.entry.now feature.entry.now) }
{
    let row = owner.row();
    let mut features = Vec::new(alloc);
    let entry = SlashEntry { row, name, feature };
    push_links_targets(alloc, index, table, entry, &mut features)?;
    push_dependency_features(owner, name, &mut features)?;
    Ok(features)
}

fn weak_rule<'a>(
    premise: &FeatureRef<'a>,
    row: &'a PackageRecord,
    name: &'a str,
    conclusion: FeatureRef<'a>,
    line: &LineRecord,
) -> LentRule<'a>
    ensures { result ≡ weak_rule premise.now row.entry.now name.entry.now conclusion.entry
        line.now }
{
    if line.optional {
        let dependency = FeatureRef::dep(row.id.as_str(), name);
        LentRule::both_imply(premise.again(), dependency, conclusion)
    } else {
        LentRule::implies(premise.again(), conclusion)
    }
}

fn push_own_feature<'a>(
    owner: &PackageIndex<'a>,
    premise: &FeatureRef<'a>,
    name: &'a str,
    rules: &mut Vec<LentRule<'a>>,
) -> Result<(), AllocError>
    ensures { OnOk result (rules.new.items
        ≡ rules.old.items ++ (if has_feature owner.now name.entry.now
        then implies premise.now (named_of owner.now.id name.entry.now) ∷ [] else [])) }
{
    if owner.has_feature(name) {
        let row = owner.row();
        let conclusion = FeatureRef::named(row.id.as_str(), name);
        rules.push(LentRule::implies(premise.again(), conclusion))?;
    }
    Ok(())
}

fn push_dependency<'a>(
    owner: &PackageIndex<'a>,
    premise: &FeatureRef<'a>,
    name: &'a str,
    rules: &mut Vec<LentRule<'a>>,
) -> Result<(), AllocError>
    ensures { OnOk result (rules.new.items
        ≡ rules.old.items ++ (if has_optional owner.now name.entry.now
        then implies premise.now (dep_of owner.now.id name.entry.now) ∷ [] else [])) }
{
    if owner.has_optional(name) {
        let row = owner.row();
        let conclusion = FeatureRef::dep(row.id.as_str(), name);
        rules.push(LentRule::implies(premise.again(), conclusion))?;
    }
    Ok(())
}

pub(crate) fn push_rules_of_entry<'a>(
    alloc: Global,
    index: &RecordIndex<'a>,
    table: &PlatformTable,
    owner: &PackageIndex<'a>,
    premise: &FeatureRef<'a>,
    entry: Entry<'a>,
    rules: &mut Vec<LentRule<'a>>,
) -> Result<(), AllocError>
    ensures { OnOk result (rules.new.items
        ≡ rules.old.items ++ rules_of_entry index.now table.now owner.now premise.now
        (entry_view entry.entry)) }
{
    match entry {
        Entry::OwnFeature(name) => push_own_feature(owner, premise, name, rules),
        Entry::Dependency(name) => push_dependency(owner, premise, name, rules),
        Entry::Strong(name, feature) => {
            let features = strong_features(alloc, index, table, owner, name, feature)?;
            push_implications(premise, features, rules)
        }
        Entry::Weak(name, feature) => {
            let row = owner.row();
            let entry = SlashEntry { row, name, feature };
            push_weak_entry(alloc, index, table, premise, entry, rules)
        }
    }
}

fn push_link_weak_rules<'a>(
    alloc: Global,
    index: &RecordIndex<'_>,
    table: &PlatformTable,
    premise: &FeatureRef<'a>,
    entry: SlashEntry<'a>,
    link: &'a LinkRecord,
    rules: &mut Vec<LentRule<'a>>,
) -> Result<(), AllocError>
    ensures { OnOk result (rules.new.items
        ≡ rules.old.items ++ weak_rules index.now table.now entry.entry.row.now premise.now
        entry.entry.name.now entry.entry.feature.now link.entry.now) }
{
    let lines = slash_lines(alloc, index, table, entry, link)?;
    let target = FeatureRef::named(link.to.as_str(), entry.feature);
    for line in &lines {
        rules.push(weak_rule(premise, entry.row, entry.name, target.again(), line))?;
    }
    Ok(())
}

fn push_weak_entry<'a>(
    alloc: Global,
    index: &RecordIndex<'a>,
    table: &PlatformTable,
    premise: &FeatureRef<'a>,
    entry: SlashEntry<'a>,
    rules: &mut Vec<LentRule<'a>>,
) -> Result<(), AllocError>
    ensures { OnOk result (rules.new.items
        ≡ rules.old.items ++ flat_map
        (weak_rules index.now table.now entry.entry.row.now premise.now entry.entry.name.now
        entry.entry.feature.now) index.now.links) }
{
    let row = entry.row;
    match index.links_named(row.id.as_str(), entry.name) {
        Some(links) => {
            for link in links {
                push_link_weak_rules(alloc, index, table, premise, entry, link.row, rules)?;
            }
            Ok(())
        }
        None => Ok(()),
    }
}

fn push_feature_rules<'a>(
    alloc: Global,
    index: &RecordIndex<'a>,
    table: &PlatformTable,
    owner: &PackageIndex<'a>,
    feature: &'a FeatureRecord,
    rules: &mut Vec<LentRule<'a>>,
) -> Result<(), AllocError>
    ensures { OnOk result (rules.new.items
        ≡ rules.old.items ++ feature_rules index.now table.now owner.now feature.entry.now) }
{
    let row = owner.row();
    let premise = FeatureRef::named(row.id.as_str(), feature.name.as_str());
    for entry in &feature.enables {
        let entry = entry_of(entry.as_str());
        push_rules_of_entry(alloc, index, table, owner, &premise, entry, rules)?;
    }
    Ok(())
}

fn push_entry_rules<'a>(
    alloc: Global,
    index: &RecordIndex<'a>,
    table: &PlatformTable,
    owner: &PackageIndex<'a>,
    rules: &mut Vec<LentRule<'a>>,
) -> Result<(), AllocError>
    ensures { OnOk result (rules.new.items
        ≡ rules.old.items ++ entry_rules index.now table.now owner.now) }
{
    let row = owner.row();
    for feature in &row.features {
        push_feature_rules(alloc, index, table, owner, feature, rules)?;
    }
    Ok(())
}

fn push_packages_entry_rules<'a>(
    alloc: Global,
    index: &RecordIndex<'a>,
    table: &PlatformTable,
    packages: &[PackageIndex<'a>],
    rules: &mut Vec<LentRule<'a>>,
) -> Result<(), AllocError>
    ensures { OnOk result (rules.new.items
        ≡ rules.old.items ++ flat_map (entry_rules index.now table.now) packages.now) }
{
    for owner in packages {
        push_entry_rules(alloc, index, table, owner, rules)?;
    }
    Ok(())
}

fn line_start<'a>(link: &'a LinkRecord, line: &LineRecord) -> FeatureRef<'a>
    ensures { result ≡ line_start link.entry.now line.now }
{
    if line.optional {
        FeatureRef::dep(link.from.as_str(), link.name.as_str())
    } else {
        FeatureRef::base(link.from.as_str())
    }
}

fn push_listed_features<'a>(
    id: &'a str,
    names: &'a [String],
    target: &PackageIndex<'_>,
    features: &mut Vec<FeatureRef<'a>>,
) -> Result<(), AllocError>
    ensures { OnOk result (features.new.items
        ≡ features.old.items ++ map (named_of id.entry.now)
        (filter (has_feature target.now) (map string_bytes names.entry.now))) }
{
    for name in names {
        if target.has_feature(name.as_str()) {
            features.push(FeatureRef::named(id, name.as_str()))?;
        }
    }
    Ok(())
}

fn line_features<'a>(
    alloc: Global,
    index: &RecordIndex<'_>,
    link: &'a LinkRecord,
    line: &'a LineRecord,
) -> Result<Vec<FeatureRef<'a>>, AllocError>
    ensures { IfOk result (λ v. v.items ≡ line_features index.now link.entry.now line.entry.now) }
{
    let id = link.to.as_str();
    let mut features = Vec::new(alloc);
    features.push(FeatureRef::base(id))?;
    if let Some(target) = index.package_of(id) {
        if line.default_features && target.has_feature(DEFAULT) {
            features.push(FeatureRef::named(id, DEFAULT))?;
        }
        push_listed_features(id, &line.features, target, &mut features)?;
    }
    Ok(features)
}

fn push_lines_rules<'a>(
    alloc: Global,
    index: &RecordIndex<'_>,
    link: &'a LinkRecord,
    lines: &[&'a LineRecord],
    rules: &mut Vec<LentRule<'a>>,
) -> Result<(), AllocError>
    ensures { OnOk result (rules.new.items
        ≡ rules.old.items ++ flat_map (line_rules index.now link.entry.now)
        (map (λ l. l.now) lines.now)) }
{
    for line in lines {
        let features = line_features(alloc, index, link, *line)?;
        push_implications(&line_start(link, *line), features, rules)?;
    }
    Ok(())
}

pub(crate) fn push_link_rules<'a>(
    alloc: Global,
    index: &RecordIndex<'_>,
    table: &PlatformTable,
    link: &'a LinkRecord,
    rules: &mut Vec<LentRule<'a>>,
) -> Result<(), AllocError>
    ensures { OnOk result (rules.new.items
        ≡ rules.old.items ++ link_rules index.now table.now link.entry.now) }
{
    let lines = counting_lines(alloc, index, table, link)?;
    push_lines_rules(alloc, index, link, &lines, rules)
}

fn push_links_rules<'a>(
    alloc: Global,
    index: &RecordIndex<'_>,
    table: &PlatformTable,
    links: &'a [LinkRecord],
    rules: &mut Vec<LentRule<'a>>,
) -> Result<(), AllocError>
    ensures { OnOk result (rules.new.items
        ≡ rules.old.items ++ flat_map (link_rules index.now table.now) links.entry.now) }
{
    for link in links {
        push_link_rules(alloc, index, table, link, rules)?;
    }
    Ok(())
}
