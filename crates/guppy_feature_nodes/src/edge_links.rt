//! The links of the lines behind an edge.

ghost use Rattle.std.specs.Prelude.{◌≡◌, ◌-◌, IfOk, OnOk, Some, length, nat_eq, slice_get, true};
ghost use Rattle.std.specs.List.{list_any};
ghost use Rattle.std.specs.List.Sorted.{IsStrictlySortedBy};
ghost use Rattle.indexmap.specs.IndexSet.{insert_key};
ghost use Rattle.guppy_feature_nodes.specs.Joining.{place_cmp};
ghost use Rattle.guppy_feature_demands.specs.declared.link_declarations.LinkDeclarations.TheVariants.{Optional, Required, Unsplit};
ghost use Rattle.guppy_feature_nodes.specs.EdgeLinkViews.{AreEdgeLinks, joined, shown_of};
ghost use Rattle.guppy_feature_nodes.specs.Lines.{links_shown};

use crate::edge_lines::declares_at;
use guppy_feature_demands::LinkDeclarations;
use guppy_package_parts::LinkRow;
use std::alloc::{AllocError, Global};

/// The links of the required lines behind an edge, and of the optional ones, each once, in the order of
/// the record. Those of all lines are kept beside them where there are lines of both sorts.
#[derive(Debug)]
pub(crate) struct EdgeLinks {
    pub unsplit: Vec<usize>,
    pub required: Vec<usize>,
    pub optional: Vec<usize>,
}

// Written out, so that a function that lets one go takes one step.
impl Drop for EdgeLinks {
    fn drop(self) {
        let EdgeLinks {
            unsplit: _,
            required: _,
            optional: _,
        } = self;
    }
}

impl EdgeLinks {
    /// The links of these lines, which ascend, each told by the number of its link and by its own there.
    pub(crate) fn of(
        alloc: Global,
        links: &[LinkRow],
        places: &[(usize, usize)],
    ) -> Result<EdgeLinks, AllocError>
        requires { IsStrictlySortedBy place_cmp places.now }
        ensures { IfOk result (AreEdgeLinks links.now places.now) }
    {
        let required = links_declaring(alloc, links, places, LinkDeclarations::Required)?;
        let optional = links_declaring(alloc, links, places, LinkDeclarations::Optional)?;
        let unsplit = links_of_both(alloc, links, places, &required, &optional)?;
        Ok(EdgeLinks {
            unsplit,
            required,
            optional,
        })
    }

    /// Those of the lines that declare what is shown.
    pub(crate) fn shown(&self, shown: LinkDeclarations) -> &[usize]
        ensures { result.now ≡ shown_of self.now shown }
    {
        match shown {
            LinkDeclarations::Unsplit if self.optional.is_empty() => &self.required,
            LinkDeclarations::Unsplit if self.required.is_empty() => &self.optional,
            LinkDeclarations::Unsplit => &self.unsplit,
            LinkDeclarations::Required => &self.required,
            LinkDeclarations::Optional => &self.optional,
        }
    }
}

// The links of all lines where there are required and optional ones; else none, since they are those of
// the one sort.
#[tactic(auto, using(crate::proofs::EdgeLinkFacts::joined_is))]
fn links_of_both(
    alloc: Global,
    links: &[LinkRow],
    places: &[(usize, usize)],
    required: &[usize],
    optional: &[usize],
) -> Result<Vec<usize>, AllocError>
    requires ascend { IsStrictlySortedBy place_cmp places.now }
    requires required { required.now ≡ links_shown links.now Required places.now }
    requires optional { optional.now ≡ links_shown links.now Optional places.now }
    ensures { IfOk result (λ v. joined required.now optional.now v.items
        ≡ links_shown links.now Unsplit places.now) }
{
    if required.is_empty() {
        return Ok(Vec::new(alloc));
    }
    if optional.is_empty() {
        return Ok(Vec::new(alloc));
    }
    links_declaring(alloc, links, places, LinkDeclarations::Unsplit)
}

fn links_declaring(
    alloc: Global,
    links: &[LinkRow],
    places: &[(usize, usize)],
    shown: LinkDeclarations,
) -> Result<Vec<usize>, AllocError>
    requires { IsStrictlySortedBy place_cmp places.now }
    ensures { IfOk result (λ v. v.items ≡ links_shown links.now shown places.now) }
{
    let mut numbers = Vec::new(alloc);
    for place in places {
        // The link is the last one where it is there already.
        if declares_at(links, shown, *place) {
            push_new(place.0, &mut numbers)?;
        }
    }
    Ok(numbers)
}

fn push_new(number: usize, numbers: &mut Vec<usize>) -> Result<(), AllocError>
    requires { list_any (nat_eq number) numbers.old.items ≡ true
        → slice_get numbers.old.items (length numbers.old.items - 1) ≡ Some number }
    ensures { OnOk result (numbers.new.items ≡ insert_key nat_eq numbers.old.items number) }
{
    match numbers.last() {
        Some(last) if *last == number => {}
        _ => {
            // The first gets room for itself alone, since most edges have one link.
            if numbers.is_empty() {
                numbers.reserve_exact(1)?;
            }
            numbers.push(number)?;
        }
    }
    Ok(())
}
