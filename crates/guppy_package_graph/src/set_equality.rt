//! Sets of packages are equal where they have the same ids.

ghost use Rattle.std.specs.Prelude.{◌≡◌};
ghost use Rattle.std.specs.List.{list_all};
ghost use Rattle.guppy_package_graph.specs.SetEquality.{agree_on, has_id};

use crate::package_set::PackageSet;
use guppy_package_parts::PackageId;

impl PackageSet<'_> {
    /// Whether a package of the set has the id.
    fn has_id(&self, id: &PackageId) -> bool
        ensures { result ≡ has_id self.now id.now }
    {
        match self.graph().table().find(id) {
            Some(place) => self.included().contains(place),
            None => false,
        }
    }
}

/// Whether each of the ids is in both sets or in neither.
fn agree_on(a: &PackageSet<'_>, b: &PackageSet<'_>, ids: &[PackageId]) -> bool
    ensures { result ≡ list_all (agree_on a.now b.now) ids.now }
{
    ids.iter().all(|id| a.has_id(id) == b.has_id(id))
}

/// Sets are equal that have the same ids, be they of one graph or of two. Takes time in proportion to
/// the packages of both graphs.
impl PartialEq for PackageSet<'_> {
    ghost use Rattle.std.specs.Cmp.{partial_equiv_from_equiv};
    ghost use Rattle.guppy_package_graph.specs.SetEquality.{have_same_ids, sets_equivalence};

    ghost eq = { have_same_ids };

    ghost laws = { partial_equiv_from_equiv sets_equivalence };

    fn eq(&self, other: &Self) -> bool {
        agree_on(self, other, self.graph().table().ids())
            && agree_on(self, other, other.graph().table().ids())
    }
}

impl Eq for PackageSet<'_> {
    ghost use Rattle.guppy_package_graph.specs.SetEquality.{sets_equivalence};

    ghost laws = { sets_equivalence };
}
