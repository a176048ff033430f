//! The labels of features: base, named or optional.

ghost use Rattle.std.specs.Prelude.{◌≡◌};
ghost use Rattle.workspace_record.specs.Features.{label_kind, label_name};
ghost use Rattle.guppy_feature_demands.specs.Kinds.{kind_of};
ghost use Rattle.guppy_feature_demands.specs.LabelViews.{label_view};

use crate::feature_kind::FeatureKind;
use std::cmp::Ordering;
use std::fmt;
use std::hash::{Hash, Hasher};

/// What a feature of a package is called. In this order, and then by bytes of the names.
#[derive(Clone, Copy, Debug)]
pub enum FeatureLabel<'g> {
    /// The package itself.
    Base,
    /// A feature that the package's manifest names.
    Named(&'g str),
    /// An optional dependency of the package.
    OptionalDependency(&'g str),
}

impl<'g> FeatureLabel<'g> {
    /// What the feature stands for.
    pub fn kind(self) -> FeatureKind
        ensures kind { result ≡ kind_of (label_view self.entry) }
    {
        match self {
            FeatureLabel::Base => FeatureKind::Base,
            FeatureLabel::Named(_) => FeatureKind::Named,
            FeatureLabel::OptionalDependency(_) => FeatureKind::OptionalDependency,
        }
    }

    // The place of its kind in the order of labels.
    fn place(self) -> u8
        ensures { result ≡ label_kind (label_view self.entry) }
    {
        match self {
            FeatureLabel::Base => 0,
            FeatureLabel::Named(_) => 1,
            FeatureLabel::OptionalDependency(_) => 2,
        }
    }

    // Its name; that of a package itself is empty.
    fn name(self) -> &'g str
        ensures { result.now ≡ label_name (label_view self.entry) }
    {
        match self {
            FeatureLabel::Base => "",
            FeatureLabel::Named(name) | FeatureLabel::OptionalDependency(name) => name,
        }
    }
}

impl PartialEq for FeatureLabel<'_> {
    ghost use Rattle.std.specs.Cmp.{partial_equiv_from_equiv};
    ghost use Rattle.std.specs.Ordering.{on};
    ghost use Rattle.workspace_record.specs.Features.{label_eq};
    ghost use Rattle.guppy_feature_demands.specs.LabelViews.{label_view, labels_equivalence};

    ghost eq = { on label_view label_eq };

    ghost laws = { partial_equiv_from_equiv labels_equivalence };

    fn eq(&self, other: &Self) -> bool {
        self.place() == other.place() && self.name() == other.name()
    }
}

impl Eq for FeatureLabel<'_> {
    ghost use Rattle.guppy_feature_demands.specs.LabelViews.{labels_equivalence};

    ghost laws = { labels_equivalence };
}

impl PartialOrd for FeatureLabel<'_> {
    ghost use Rattle.std.specs.Ordering.{as_partial_cmp, on};
    ghost use Rattle.workspace_record.specs.Features.{label_cmp};
    ghost use Rattle.guppy_feature_demands.specs.LabelViews.{label_view, labels_in_order};

    ghost partial_cmp = { as_partial_cmp (on label_view label_cmp) };

    ghost laws = { labels_in_order };

    fn partial_cmp(&self, other: &Self) -> Option<Ordering> {
        Some(self.cmp(other))
    }
}

impl Ord for FeatureLabel<'_> {
    ghost use Rattle.std.proofs.Common.{refl};
    ghost use Rattle.std.specs.Ordering.{on};
    ghost use Rattle.workspace_record.specs.Features.{label_cmp};
    ghost use Rattle.guppy_feature_demands.specs.LabelViews.{label_ties, label_view, labels_total};

    ghost cmp = { on label_view label_cmp };

    ghost total = { labels_total };

    ghost matches_partial_cmp = { λ a b. refl };

    ghost matches_eq = { λ a b. label_ties (label_view a) (label_view b) };

    fn cmp(&self, other: &Self) -> Ordering {
        match self.place().cmp(&other.place()) {
            Ordering::Equal => self.name().cmp(other.name()),
            order => order,
        }
    }
}

impl Hash for FeatureLabel<'_> {
    ghost use Rattle.workspace_record.specs.Features.{label_writes};
    ghost use Rattle.guppy_feature_demands.specs.LabelViews.{label_view, same_label_writes};

    ghost hash_input = { λ l. label_writes (label_view l) };

    ghost respects_eq = { λ a b. same_label_writes (label_view a) (label_view b) };

    fn hash<H: Hasher>(&self, state: &mut H) {
        match self {
            FeatureLabel::Base => state.write_u8(0),
            FeatureLabel::Named(name) => {
                state.write_u8(1);
                name.hash(state);
            }
            FeatureLabel::OptionalDependency(name) => {
                state.write_u8(2);
                name.hash(state);
            }
        }
    }
}

impl fmt::Display for FeatureLabel<'_> {
    ghost use Rattle.std.specs.Prelude.{Some};
    ghost use Rattle.guppy_feature_demands.specs.Printing.{label_text};
    ghost use Rattle.guppy_feature_demands.specs.LabelViews.{label_view};

    ghost output = { λ label. Some (label_text (label_view label)) };

    fn fmt<W: fmt::Write>(&self, f: &mut fmt::Formatter<W>) -> fmt::Result {
        match self {
            FeatureLabel::Base => f.write_str("[base]"),
            FeatureLabel::Named(name) => f.write_str(name),
            FeatureLabel::OptionalDependency(name) => {
                f.write_str("dep:")?;
                f.write_str(name)
            }
        }
    }
}
