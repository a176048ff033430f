//! The iterator over names in labels of one kind.

ghost use Rattle.std.specs.Prelude.{◌≡◌, map, option_map};
ghost use Rattle.guppy_feature_demands.specs.LabelViews.{label_view};
ghost use Rattle.guppy_feature_views.specs.Labels.{name_by, names_of};

use guppy_feature_demands::{FeatureKind, FeatureLabel};
use std::{fmt, slice};

/// The names in labels of one kind, in their order.
#[derive(Drop)]
pub struct LabelNames<'g, 'a> {
    kind: FeatureKind,
    labels: slice::Iter<'a, FeatureLabel<'g>>,
}

impl<'g, 'a> LabelNames<'g, 'a> {
    ghost use Rattle.guppy_feature_views.specs.ListViews.{names_left};

    pub(crate) fn of(kind: FeatureKind, labels: &'a [FeatureLabel<'g>]) -> LabelNames<'g, 'a>
        ensures { names_left result ≡ names_of kind (map label_view labels.entry.now) }
    {
        LabelNames {
            kind,
            labels: labels.iter(),
        }
    }
}

impl<'g> Iterator for LabelNames<'g, '_> {
    type Item = &'g str;

    ghost use Rattle.std.specs.Iterator.{YieldsFirstBy, item_count};
    ghost use Rattle.guppy_feature_views.specs.ListViews.{names_left};

    ghost next_gives = { YieldsFirstBy (λ name. name.now) names_left };

    ghost remaining = { item_count names_left };

    fn next(&mut self) -> Option<&'g str> {
        while let Some(label) = self.labels.next() {
            if let Some(name) = name_by(self.kind, *label) {
                return Some(name);
            }
        }
        None
    }
}

fn name_by<'g>(kind: FeatureKind, label: FeatureLabel<'g>) -> Option<&'g str>
    ensures { option_map (λ name. name.now) result ≡ name_by kind (label_view label.entry) }
{
    match (kind, label) {
        (FeatureKind::Named, FeatureLabel::Named(name)) => Some(name),
        (FeatureKind::OptionalDependency, FeatureLabel::OptionalDependency(name)) => Some(name),
        _ => None,
    }
}

impl fmt::Debug for LabelNames<'_, '_> {
    fn fmt<W: fmt::Write>(&self, f: &mut fmt::Formatter<W>) -> fmt::Result {
        f.debug_struct("LabelNames")
            .field("kind", &self.kind)
            .field("labels", &self.labels.as_slice())
            .finish()
    }
}
