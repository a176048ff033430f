//! The features of a package of which each name's first counts.

ghost use Rattle.std.specs.Prelude.{◌≡◌, IfOk, map};
ghost use Rattle.guppy_feature_demands.specs.Demands.{same_name};
ghost use Rattle.guppy_feature_demands.specs.NamedRows.{named_view};
ghost use Rattle.guppy_feature_demands.specs.Nodes.{first_of_each};

use guppy_package_parts::FeatureRow;
use indexmap::IndexSet;
use std::alloc::{AllocError, Global};
use std::hash::{Hash, Hasher};

/// A feature's row, told by its name.
#[derive(Clone, Copy)]
pub(crate) struct NamedRow<'g> {
    pub row: &'g FeatureRow,
}

impl PartialEq for NamedRow<'_> {
    ghost use Rattle.std.specs.Ordering.{on};
    ghost use Rattle.std.specs.Cmp.{partial_equiv_from_equiv};
    ghost use Rattle.guppy_feature_demands.specs.Demands.{same_name};
    ghost use Rattle.guppy_feature_demands.specs.NamedRows.{named_view, named_rows_equivalence};

    ghost eq = { on named_view same_name };

    ghost laws = { partial_equiv_from_equiv named_rows_equivalence };

    fn eq(&self, other: &Self) -> bool {
        let (row, other_row) = (self.row, other.row);
        row.name == other_row.name
    }
}

impl Eq for NamedRow<'_> {
    ghost use Rattle.guppy_feature_demands.specs.NamedRows.{named_rows_equivalence};

    ghost laws = { named_rows_equivalence };
}

impl Hash for NamedRow<'_> {
    ghost use Rattle.std.specs.Hash as fed;
    ghost use Rattle.guppy_feature_demands.specs.NamedRows.{named_view, same_name_writes};

    ghost hash_input = { λ r. fed.str (named_view r).name };

    ghost respects_eq = { same_name_writes };

    fn hash<H: Hasher>(&self, state: &mut H) {
        let row = self.row;
        row.name.hash(state);
    }
}

pub(crate) fn named_entries<'g>(
    alloc: Global,
    features: &'g [FeatureRow],
) -> Result<IndexSet<NamedRow<'g>>, AllocError>
    ensures { IfOk result (λ set. map named_view set.keys
        ≡ first_of_each same_name features.entry.now) }
{
    let mut set: IndexSet<NamedRow<'g>> = IndexSet::with_capacity(alloc, features.len())?;
    for row in features {
        set.insert(NamedRow { row })?;
    }
    Ok(set)
}
