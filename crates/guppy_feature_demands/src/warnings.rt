//! What is odd about the features of rows.

ghost use Rattle.std.specs.Prelude.{◌≡◌, ◌++◌, IfOk, OnOk, map, string_bytes};
ghost use Rattle.std.specs.List.{flat_map};
ghost use Rattle.guppy_package_parts.specs.Warnings.{AddNamedFeatureEdges, MissingFeature};
ghost use Rattle.guppy_feature_demands.specs.LabelViews.{label_view};
ghost use Rattle.guppy_feature_demands.specs.Printing.{label_text};
ghost use Rattle.guppy_package_parts.specs.WarningViews.{stage_view, warning_view};
ghost use Rattle.guppy_feature_demands.specs.EntriesAt.{at_warnings};
ghost use Rattle.guppy_feature_demands.specs.EntryAtView.{entry_at_view};
ghost use Rattle.guppy_feature_demands.specs.HashedViews.{hashed_view};
ghost use Rattle.guppy_feature_demands.specs.Nodes.{named_of};
ghost use Rattle.guppy_feature_demands.specs.Numbered.{links_named};
ghost use Rattle.guppy_feature_demands.specs.NumberedViews.{link_view};
ghost use Rattle.guppy_feature_demands.specs.StageViews.{place_view};
ghost use Rattle.guppy_feature_demands.specs.Warnings.{line_warnings, link_warnings, missing, own_warnings, slash_warnings};

use crate::entries::EntryAt;
use crate::feature_key::FeatureKey;
use crate::hashed_id::HashedId;
use crate::link_ends::LinkEnds;
use crate::link_table::LinkTable;
use crate::nodes::NodeTable;
use crate::numbered::NumberedLink;
use guppy_package_parts::{FeatureBuildStage, FeatureGraphWarning, LineRow, PackageId};
use std::alloc::{AllocError, Global};
use workspace_record::Entry;

/// Where a feature is named: by an entry of a package's feature, or by a package's dependency.
#[derive(Clone, Copy)]
pub(crate) enum WarningSite<'g> {
    Entry(&'g str, &'g str),
    Line(&'g str, &'g str),
}

/// The warnings of the packages' features, and then of the links' lines.
pub(crate) fn warnings_of<'g>(
    alloc: Global,
    entries: &[EntryAt<'g>],
    nodes: &NodeTable<'g>,
    links: &LinkTable<'g>,
) -> Result<Vec<FeatureGraphWarning>, AllocError>
    ensures { IfOk result (λ v. map warning_view v.items
        ≡ flat_map (at_warnings nodes.now links.now) (map entry_at_view entries.now)
        ++ flat_map (λ link. link_warnings nodes.now link.1) links.now) }
{
    let mut warnings: Vec<FeatureGraphWarning> = Vec::new(alloc);
    for at in entries {
        push_entry(alloc, *at, nodes, links, &mut warnings)?;
    }
    let all = links.all();
    for link in all {
        push_link(alloc, *link, nodes, &mut warnings)?;
    }
    Ok(warnings)
}

fn push_entry<'g>(
    alloc: Global,
    at: EntryAt<'g>,
    nodes: &NodeTable<'g>,
    links: &LinkTable<'g>,
    warnings: &mut Vec<FeatureGraphWarning>,
) -> Result<(), AllocError>
    ensures { OnOk result (map warning_view warnings.new.items
        ≡ map warning_view warnings.old.items
        ++ at_warnings nodes.now links.now (entry_at_view at.entry)) }
{
    let (id, from) = (at.id, at.feature);
    match at.entry {
        Entry::OwnFeature(name) => push_own(alloc, id, from, name, nodes, warnings),
        Entry::Dependency(name) => {
            let dep = FeatureKey::dep(id, name);
            push_missing(
                alloc,
                WarningSite::Entry(id.text, from),
                dep,
                nodes,
                warnings,
            )
        }
        Entry::Strong(name, feature) | Entry::Weak(name, feature) => {
            push_slash(alloc, at, name, feature, nodes, links, warnings)
        }
    }
}

fn push_own<'g>(
    alloc: Global,
    id: HashedId<'g>,
    from: &'g str,
    name: &'g str,
    nodes: &NodeTable<'g>,
    warnings: &mut Vec<FeatureGraphWarning>,
) -> Result<(), AllocError>
    ensures { OnOk result (map warning_view warnings.new.items
        ≡ map warning_view warnings.old.items
        ++ own_warnings nodes.now id.entry.text.now from.entry.now name.entry.now) }
{
    if name == from {
        let package_id = id_of(alloc, id.text)?;
        let feature_name = String::from_str(alloc, from)?;
        warnings.push(FeatureGraphWarning::SelfLoop {
            package_id,
            feature_name,
        })?;
        Ok(())
    } else {
        let feature = FeatureKey::named(id, name);
        push_missing(
            alloc,
            WarningSite::Entry(id.text, from),
            feature,
            nodes,
            warnings,
        )
    }
}

fn push_slash<'g>(
    alloc: Global,
    at: EntryAt<'g>,
    name: &'g str,
    feature: &'g str,
    nodes: &NodeTable<'g>,
    links: &LinkTable<'g>,
    warnings: &mut Vec<FeatureGraphWarning>,
) -> Result<(), AllocError>
    ensures { OnOk result (map warning_view warnings.new.items
        ≡ map warning_view warnings.old.items
        ++ slash_warnings nodes.now (AddNamedFeatureEdges at.entry.id.text.now at.entry.feature.now)
        feature.entry.now (links_named links.now at.entry.id.text.now name.entry.now)) }
{
    let stage = WarningSite::Entry(at.id.text, at.feature);
    match links.named(at.id, name) {
        Some(group) => push_slash_links(alloc, stage, feature, group, nodes, warnings),
        None => Ok(()),
    }
}

fn push_slash_links<'g>(
    alloc: Global,
    stage: WarningSite<'g>,
    feature: &'g str,
    links: &[NumberedLink<'g>],
    nodes: &NodeTable<'g>,
    warnings: &mut Vec<FeatureGraphWarning>,
) -> Result<(), AllocError>
    ensures { OnOk result (map warning_view warnings.new.items
        ≡ map warning_view warnings.old.items
        ++ slash_warnings nodes.now (place_view stage.entry) feature.entry.now
        (map link_view links.now)) }
{
    for link in links {
        let row = link.row;
        let to = FeatureKey::named(HashedId::of(row.to.as_str()), feature);
        push_missing(alloc, stage, to, nodes, warnings)?;
    }
    Ok(())
}

fn push_link<'g>(
    alloc: Global,
    link: LinkEnds<'g>,
    nodes: &NodeTable<'g>,
    warnings: &mut Vec<FeatureGraphWarning>,
) -> Result<(), AllocError>
    ensures { OnOk result (map warning_view warnings.new.items
        ≡ map warning_view warnings.old.items ++ link_warnings nodes.now link.entry.at.row.now) }
{
    let row = link.at.row;
    let lines: &[LineRow] = &row.lines;
    for line in lines {
        push_line(alloc, link, line, nodes, warnings)?;
    }
    Ok(())
}

fn push_line<'g>(
    alloc: Global,
    link: LinkEnds<'g>,
    line: &'g LineRow,
    nodes: &NodeTable<'g>,
    warnings: &mut Vec<FeatureGraphWarning>,
) -> Result<(), AllocError>
    ensures { OnOk result (map warning_view warnings.new.items
        ≡ map warning_view warnings.old.items
        ++ line_warnings nodes.now link.entry.at.row.now line.entry.now) }
{
    let row = link.at.row;
    let stage = WarningSite::Line(link.from.text, row.name.as_str());
    if line.optional {
        let dep = FeatureKey::dep(link.from, row.name.as_str());
        push_missing(alloc, stage, dep, nodes, warnings)?;
    }
    push_listed(alloc, stage, link.to, &line.features, nodes, warnings)
}

fn push_listed<'g>(
    alloc: Global,
    stage: WarningSite<'g>,
    to: HashedId<'g>,
    names: &'g [String],
    nodes: &NodeTable<'g>,
    warnings: &mut Vec<FeatureGraphWarning>,
) -> Result<(), AllocError>
    ensures { OnOk result (map warning_view warnings.new.items
        ≡ map warning_view warnings.old.items
        ++ flat_map (λ x. missing nodes.now (place_view stage.entry) (named_of to.entry.text.now x))
        (map string_bytes names.entry.now)) }
{
    for name in names {
        let feature = FeatureKey::named(to, name.as_str());
        push_missing(alloc, stage, feature, nodes, warnings)?;
    }
    Ok(())
}

fn push_missing<'g>(
    alloc: Global,
    stage: WarningSite<'g>,
    feature: FeatureKey<'g>,
    nodes: &NodeTable<'g>,
    warnings: &mut Vec<FeatureGraphWarning>,
) -> Result<(), AllocError>
    ensures { OnOk result (map warning_view warnings.new.items
        ≡ map warning_view warnings.old.items
        ++ missing nodes.now (place_view stage.entry) (hashed_view feature.entry)) }
{
    if !nodes.has(feature) {
        warnings.push(missing_feature(alloc, stage, feature)?)?;
    }
    Ok(())
}

fn missing_feature(
    alloc: Global,
    stage: WarningSite<'_>,
    feature: FeatureKey<'_>,
) -> Result<FeatureGraphWarning, AllocError>
    ensures { IfOk result (λ w. warning_view w
        ≡ MissingFeature (place_view stage.entry) feature.entry.id.text.now
        (label_text (label_view feature.entry.label))) }
{
    let package_id = id_of(alloc, feature.id.text)?;
    let label = feature.label;
    let feature_name = format!(in alloc; "{label}")?;
    let stage = stage_of(alloc, stage)?;
    Ok(FeatureGraphWarning::MissingFeature {
        stage,
        package_id,
        feature_name,
    })
}

fn stage_of(alloc: Global, stage: WarningSite<'_>) -> Result<FeatureBuildStage, AllocError>
    ensures { IfOk result (λ s. stage_view s ≡ place_view stage.entry) }
{
    match stage {
        WarningSite::Entry(id, from) => {
            let package_id = id_of(alloc, id)?;
            let from_feature = String::from_str(alloc, from)?;
            Ok(FeatureBuildStage::AddNamedFeatureEdges {
                package_id,
                from_feature,
            })
        }
        WarningSite::Line(id, name) => {
            let package_id = id_of(alloc, id)?;
            let dep_name = String::from_str(alloc, name)?;
            Ok(FeatureBuildStage::AddDependencyEdges {
                package_id,
                dep_name,
            })
        }
    }
}

fn id_of(alloc: Global, text: &str) -> Result<PackageId, AllocError>
    ensures { IfOk result (λ id. id ≡ text.now) }
{
    let text = String::from_str(alloc, text)?;
    Ok(PackageId::new(text))
}
