//! Sets as ascending lists.

ghost use Rattle.std.specs.Prelude.{◌≡◌, IfOk, string_bytes};
ghost use Rattle.std.specs.List.{list_any};
ghost use Rattle.std.specs.List.Sorted.{IsStrictlySortedBy};
ghost use Rattle.guppy_package_parts.specs.SortedSets.{HoldsClones, HoldsEach, joined_rest};

use std::alloc::{AllocError, Global};
use std::cmp::Ordering;
use std::fmt;
use std::hash::{Hash, Hasher};
use std::marker::Model;
use std::ops::DerefSlice;

/// Elements in ascending order, each once.
#[derive(Debug, Drop)]
pub struct SortedSet<T: Ord> {
    elements: Vec<T>,
}

impl<T: Ord> Model for SortedSet<T> {
    ghost use Rattle.std.specs.Prelude.{List};
    ghost use Rattle.std.specs.List.Sorted.{IsStrictlySortedBy};

    ghost Value = { List T };

    ghost view = { λ s. s.elements.items };

    ghost invariant = { λ s. IsStrictlySortedBy T.cmp s.elements.items };
}

impl<T: Ord + Drop> SortedSet<T> {
    /// The set of these elements. Of several that are equal it keeps one.
    pub fn new(mut elements: Vec<T>) -> SortedSet<T>
        ensures { HoldsEach T.eq T.cmp elements.items result }
    {
        elements.sort_unstable();
        elements.dedup();
        SortedSet { elements }
    }
}

impl<T: Ord> SortedSet<T> {
    /// Whether an element of the set is equal to this one, found by halving.
    pub fn contains(&self, element: &T) -> bool
        ensures { result ≡ list_any (λ x. T.eq x element.now) self.now }
    {
        self.elements.binary_search(element).is_ok()
    }

    /// The elements in ascending order.
    pub fn as_slice(&self) -> &[T]
        ensures value { result.now ≡ self.now }
        ensures ascending { IsStrictlySortedBy T.cmp result.now }
    {
        self.elements.as_slice()
    }

    /// The elements in ascending order.
    pub fn into_inner(self) -> Vec<T>
        ensures value { result.items ≡ self }
        ensures ascending { IsStrictlySortedBy T.cmp result.items }
    {
        self.elements
    }
}

impl<T: Ord + Clone> SortedSet<T> {
    // A clone is what the element's type says it is and may compare otherwise, so the copy is put in order anew.
    /// The set of clones of the elements, in memory of its own.
    pub fn copy(&self, alloc: Global) -> Result<SortedSet<T>, AllocError>
        ensures clones { IfOk result (HoldsClones T.is_clone T.eq T.cmp self.now) }
    {
        let elements = Vec::from_clones(alloc, self.elements.as_slice())?;
        Ok(SortedSet::new(elements))
    }
}

/// Sets are equal that have equal elements.
impl<T: Ord> PartialEq for SortedSet<T> {
    ghost use Rattle.std.specs.Cmp.{partial_equiv_from_equiv};
    ghost use Rattle.std.specs.Cmp.Lexicographic.{lists_equiv, pointwise};

    ghost eq = { pointwise T.eq };

    ghost laws = { partial_equiv_from_equiv (lists_equiv T.Eq.laws) };

    fn eq(&self, other: &Self) -> bool {
        self.elements == other.elements
    }
}

impl<T: Ord> Eq for SortedSet<T> {
    ghost use Rattle.std.specs.Cmp.Lexicographic.{lists_equiv};

    ghost laws = { lists_equiv T.Eq.laws };
}

impl<T: Ord> PartialOrd for SortedSet<T> {
    ghost use Rattle.std.specs.Cmp.Lexicographic.{slice_cmp};
    ghost use Rattle.std.specs.Ordering.{as_partial_cmp};
    ghost use Rattle.guppy_package_parts.specs.SortedSets.{lists_in_order};

    ghost partial_cmp = { as_partial_cmp (slice_cmp T.cmp) };

    ghost laws = { lists_in_order T.cmp T.total T.matches_eq };

    fn partial_cmp(&self, other: &Self) -> Option<Ordering> {
        Some(self.cmp(other))
    }
}

/// Sets are ordered by their first elements that differ, in ascending order.
impl<T: Ord> Ord for SortedSet<T> {
    ghost use Rattle.std.proofs.Common.{refl};
    ghost use Rattle.std.specs.Cmp.Lexicographic.{lists_ties, lists_total, slice_cmp};

    ghost cmp = { slice_cmp T.cmp };

    ghost total = { lists_total T.total };

    ghost matches_partial_cmp = { λ a b. refl };

    ghost matches_eq = { lists_ties T.cmp T.matches_eq };

    fn cmp(&self, other: &Self) -> Ordering {
        self.elements.cmp(&other.elements)
    }
}

impl<T: Ord + Hash> Hash for SortedSet<T> {
    ghost use Rattle.std.specs.Hash as fed;

    ghost hash_input = { fed.slice T.hash_input };

    ghost respects_eq = { (fed.items_Alike (record { fed = T.respects_eq })).fed };

    fn hash<H: Hasher>(&self, state: &mut H) {
        self.elements.hash(state);
    }
}

impl<T: Ord> DerefSlice for SortedSet<T> {
    type Elem = T;

    ghost use Rattle.std.specs.Prelude.{◌≡◌};

    ghost deref_gives = { λ set elements. elements ≡ set };

    fn deref(&self) -> &[T]
        ensures { result.now ≡ self.now }
    {
        self.elements.as_slice()
    }
}

impl fmt::Display for SortedSet<String> {
    ghost use Rattle.std.specs.Prelude.{Some, map, string_bytes};
    ghost use Rattle.guppy_package_parts.specs.SortedSets.{joined};

    ghost output = { λ set. Some (joined (map string_bytes set)) };

    fn fmt<W: fmt::Write>(&self, f: &mut fmt::Formatter<W>) -> fmt::Result {
        match self.elements.split_first() {
            None => Ok(()),
            Some((first, others)) => {
                f.write_str(first.as_str())?;
                for other in others {
                    write!(f, ", {other}")?;
                }
                Ok(())
            }
        }
    }
}
