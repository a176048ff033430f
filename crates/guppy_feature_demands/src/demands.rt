//! What the rows demand.

ghost use Rattle.std.specs.Prelude.{◌≡◌, ◌∷◌, ◌++◌, [], IfOk, OnOk, map, string_bytes};
ghost use Rattle.std.specs.List.{flat_map};
ghost use Rattle.guppy_feature_demands.specs.Demands.{base_demands, dependency_demands, leads_by, line_demands, link_demands, slash_demands, DependenciesSection};
ghost use Rattle.guppy_feature_demands.specs.DemandViews.{demand_view, form_view};
ghost use Rattle.guppy_feature_demands.specs.EntriesAt.{at_demands};
ghost use Rattle.guppy_feature_demands.specs.EntryAtView.{entry_at_view};
ghost use Rattle.guppy_feature_demands.specs.HashedViews.{hashed_view};
ghost use Rattle.guppy_feature_demands.specs.Nodes.{named_of};
ghost use Rattle.guppy_feature_demands.specs.Numbered.{links_named};
ghost use Rattle.guppy_feature_demands.specs.NumberedViews.{ends_view, line_view, link_view};

use crate::demand::{Demand, EdgeKind};
use crate::entries::EntryAt;
use crate::feature_key::FeatureKey;
use crate::hashed_id::HashedId;
use crate::link_ends::LinkEnds;
use crate::link_table::LinkTable;
use crate::nodes::NodeTable;
use crate::numbered::{LineAt, NumberedLink};
use guppy_package_parts::LineRow;
use std::alloc::{AllocError, Global};
use workspace_record::Entry;

/// Each feature leads to its package.
pub(crate) fn base_demands<'g>(
    alloc: Global,
    nodes: &NodeTable<'g>,
) -> Result<Vec<Demand<'g>>, AllocError>
    ensures { IfOk result (λ v. map demand_view v.items ≡ base_demands nodes.now) }
{
    let mut demands: Vec<Demand<'g>> = Vec::with_capacity(alloc, nodes.len())?;
    let names = nodes.names();
    for name in names {
        demands.push(Demand {
            from: *name,
            to: FeatureKey::base(name.id),
            form: EdgeKind::FeatureToBase,
            line: None,
        })?;
    }
    Ok(demands)
}

/// What the entries of features demand.
pub(crate) fn entry_demands<'g>(
    alloc: Global,
    entries: &[EntryAt<'g>],
    nodes: &NodeTable<'g>,
    links: &LinkTable<'g>,
) -> Result<Vec<Demand<'g>>, AllocError>
    ensures { IfOk result (λ v. map demand_view v.items
        ≡ flat_map (at_demands nodes.now links.now) (map entry_at_view entries.now)) }
{
    let mut demands: Vec<Demand<'g>> = Vec::new(alloc);
    for at in entries {
        push_entry(*at, nodes, links, &mut demands)?;
    }
    Ok(demands)
}

/// What the lines of links demand.
pub(crate) fn link_demands<'g>(
    alloc: Global,
    links: &LinkTable<'g>,
) -> Result<Vec<Demand<'g>>, AllocError>
    ensures { IfOk result (λ v. map demand_view v.items ≡ flat_map link_demands links.now) }
{
    let mut demands: Vec<Demand<'g>> = Vec::new(alloc);
    let all = links.all();
    for link in all {
        push_link(*link, &mut demands)?;
    }
    Ok(demands)
}

fn push_entry<'g>(
    at: EntryAt<'g>,
    nodes: &NodeTable<'g>,
    links: &LinkTable<'g>,
    demands: &mut Vec<Demand<'g>>,
) -> Result<(), AllocError>
    ensures { OnOk result (map demand_view demands.new.items
        ≡ map demand_view demands.old.items
        ++ at_demands nodes.now links.now (entry_at_view at.entry)) }
{
    let id = at.id;
    let from = FeatureKey::named(id, at.feature);
    match at.entry {
        Entry::OwnFeature(name) => {
            let to = FeatureKey::named(id, name);
            push_demand(from, to, EdgeKind::NamedFeature, None, demands)
        }
        Entry::Dependency(name) => {
            let to = FeatureKey::dep(id, name);
            push_demand(from, to, EdgeKind::NamedFeatureDepColon, None, demands)
        }
        Entry::Strong(name, feature) => {
            let form = EdgeKind::StrongSlash(name);
            push_slash(from, name, feature, form, links, demands)?;
            push_dependency(from, name, nodes, demands)
        }
        Entry::Weak(name, feature) => {
            let form = EdgeKind::WeakSlash(name);
            push_slash(from, name, feature, form, links, demands)
        }
    }
}

fn push_demand<'g>(
    from: FeatureKey<'g>,
    to: FeatureKey<'g>,
    form: EdgeKind<'g>,
    line: Option<(usize, usize)>,
    demands: &mut Vec<Demand<'g>>,
) -> Result<(), AllocError>
    ensures { OnOk result (map demand_view demands.new.items
        ≡ map demand_view demands.old.items ++ record {
          from = hashed_view from.entry;
          to = hashed_view to.entry;
          form = form_view form.entry;
          line = line;
        } ∷ []) }
{
    demands.push(Demand {
        from,
        to,
        form,
        line,
    })?;
    Ok(())
}

fn push_dependency<'g>(
    from: FeatureKey<'g>,
    name: &'g str,
    nodes: &NodeTable<'g>,
    demands: &mut Vec<Demand<'g>>,
) -> Result<(), AllocError>
    ensures { OnOk result (map demand_view demands.new.items
        ≡ map demand_view demands.old.items
        ++ dependency_demands nodes.now from.entry.id.text.now (hashed_view from.entry)
        name.entry.now) }
{
    let dep = FeatureKey::dep(from.id, name);
    push_demand(from, dep, EdgeKind::NamedFeatureDepColon, None, demands)?;
    if nodes.has(dep) {
        let to = FeatureKey::named(from.id, name);
        push_demand(from, to, EdgeKind::NamedFeature, None, demands)?;
    }
    Ok(())
}

fn push_slash<'g>(
    from: FeatureKey<'g>,
    name: &'g str,
    feature: &'g str,
    form: EdgeKind<'g>,
    links: &LinkTable<'g>,
    demands: &mut Vec<Demand<'g>>,
) -> Result<(), AllocError>
    ensures { OnOk result (map demand_view demands.new.items
        ≡ map demand_view demands.old.items
        ++ flat_map (slash_demands (form_view form.entry) (hashed_view from.entry)
        feature.entry.now) (links_named links.now from.entry.id.text.now name.entry.now)) }
{
    match links.named(from.id, name) {
        Some(group) => push_slash_links(from, feature, form, group, demands),
        None => Ok(()),
    }
}

fn push_slash_links<'g>(
    from: FeatureKey<'g>,
    feature: &'g str,
    form: EdgeKind<'g>,
    links: &[NumberedLink<'g>],
    demands: &mut Vec<Demand<'g>>,
) -> Result<(), AllocError>
    ensures { OnOk result (map demand_view demands.new.items
        ≡ map demand_view demands.old.items
        ++ flat_map (slash_demands (form_view form.entry) (hashed_view from.entry)
        feature.entry.now) (map link_view links.now)) }
{
    for link in links {
        push_slash_link(from, feature, form, *link, demands)?;
    }
    Ok(())
}

fn push_slash_link<'g>(
    from: FeatureKey<'g>,
    feature: &'g str,
    form: EdgeKind<'g>,
    link: NumberedLink<'g>,
    demands: &mut Vec<Demand<'g>>,
) -> Result<(), AllocError>
    ensures { OnOk result (map demand_view demands.new.items
        ≡ map demand_view demands.old.items
        ++ slash_demands (form_view form.entry) (hashed_view from.entry) feature.entry.now
        (link_view link.entry)) }
{
    let row = link.row;
    let to = FeatureKey::named(HashedId::of(row.to.as_str()), feature);
    let lines: &[LineRow] = &row.lines;
    for (number, _) in lines.iter().enumerate() {
        push_demand(from, to, form, Some((link.number, number)), demands)?;
    }
    Ok(())
}

fn push_link<'g>(link: LinkEnds<'g>, demands: &mut Vec<Demand<'g>>) -> Result<(), AllocError>
    ensures { OnOk result (map demand_view demands.new.items
        ≡ map demand_view demands.old.items ++ link_demands (ends_view link.entry)) }
{
    let row = link.at.row;
    let lines: &[LineRow] = &row.lines;
    for (number, row) in lines.iter().enumerate() {
        let place = (link.at.number, number);
        push_line(link, LineAt { place, row }, demands)?;
    }
    Ok(())
}

fn push_line<'g>(
    link: LinkEnds<'g>,
    at: LineAt<'g>,
    demands: &mut Vec<Demand<'g>>,
) -> Result<(), AllocError>
    ensures { OnOk result (map demand_view demands.new.items
        ≡ map demand_view demands.old.items
        ++ line_demands link.entry.at.row.now (line_view at.entry)) }
{
    let (row, line) = (link.at.row, at.row);
    let from = if line.optional {
        FeatureKey::dep(link.from, row.name.as_str())
    } else {
        FeatureKey::base(link.from)
    };
    let (form, place) = (EdgeKind::DependenciesSection, Some(at.place));
    push_demand(from, FeatureKey::base(link.to), form, place, demands)?;
    if line.default_features {
        let to = FeatureKey::named(link.to, "default");
        push_demand(from, to, form, place, demands)?;
    }
    push_listed(from, link.to, &line.features, at.place, demands)
}

fn push_listed<'g>(
    from: FeatureKey<'g>,
    id: HashedId<'g>,
    names: &'g [String],
    place: (usize, usize),
    demands: &mut Vec<Demand<'g>>,
) -> Result<(), AllocError>
    ensures { OnOk result (map demand_view demands.new.items
        ≡ map demand_view demands.old.items
        ++ map (λ g. leads_by DependenciesSection (hashed_view from.entry) g place)
        (map (named_of id.entry.text.now) (map string_bytes names.entry.now))) }
{
    for name in names {
        let to = FeatureKey::named(id, name.as_str());
        push_demand(
            from,
            to,
            EdgeKind::DependenciesSection,
            Some(place),
            demands,
        )?;
    }
    Ok(())
}
