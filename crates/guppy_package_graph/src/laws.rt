//! Laws of packages, their sets, and what is said of them.

ghost use Rattle.std.specs.Prelude.{◌≡◌, length};
ghost use Rattle.std.specs.Iterator.{IsFinite, size};
ghost use Rattle.guppy_package_graph.specs.DirectViews.{links_left};
ghost use Rattle.guppy_package_graph.specs.SetEquality.{SetsAreToldByIds};

use crate::direct_links::DirectLinks;
pub use guppy_package_parts::laws::{
    and_is_minimum, ids_are_lawful, names_ascend, or_is_maximum, platforms_join,
    required_features_end, sets_ascend, target_specs_end,
};

/// Sets of packages are equal exactly where each id is in both or in neither.
pub fn sets_are_told_by_ids()
    ensures told { SetsAreToldByIds }
{}

/// The links of a package end too, which tell no length: they are exactly those that are left.
pub fn direct_links_end(links: &DirectLinks<'_>)
    ensures ends { IsFinite (⟦<DirectLinks<'static> as Iterator>⟧.remaining links.now) }
    ensures left { size (⟦<DirectLinks<'static> as Iterator>⟧.remaining links.now)
        ≡ length (links_left links.now) }
{
    let _ = links;
}

/// Each iterator that tells how many are still to come, as those of packages, ids, members and cycles
/// do, ends, and tells it exactly, at each moment.
pub fn exact_sizes_are_exact<I: ExactSizeIterator>(iterator: &I) -> usize
    ensures ends { IsFinite (I.Iterator.remaining iterator.now) }
    ensures exact { result ≡ size (I.Iterator.remaining iterator.now) }
{
    iterator.len()
}
