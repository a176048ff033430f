//! Features of one package, printed.

use guppy_feature_demands::FeatureLabel;
use std::fmt;

/// Features of one package, printed by their labels.
#[derive(Clone, Copy, Debug)]
pub struct DisplayFeatures<'g, 'a> {
    labels: &'a [FeatureLabel<'g>],
}

impl<'g, 'a> DisplayFeatures<'g, 'a> {
    ghost use Rattle.std.specs.Prelude.{◌≡◌, map};
    ghost use Rattle.guppy_feature_demands.specs.LabelViews.{label_view};
    ghost use Rattle.guppy_feature_views.specs.ListViews.{printed_labels};

    pub(crate) fn of(labels: &'a [FeatureLabel<'g>]) -> DisplayFeatures<'g, 'a>
        ensures { printed_labels result ≡ map label_view labels.entry.now }
    {
        DisplayFeatures { labels }
    }
}

impl fmt::Display for DisplayFeatures<'_, '_> {
    ghost use Rattle.std.specs.Prelude.{Some, map};
    ghost use Rattle.guppy_package_parts.specs.SortedSets.{joined};
    ghost use Rattle.guppy_feature_demands.specs.Printing.{label_text};
    ghost use Rattle.guppy_feature_views.specs.ListViews.{printed_labels};

    ghost output = { λ d. Some (joined (map label_text (printed_labels d))) };

    fn fmt<W: fmt::Write>(&self, f: &mut fmt::Formatter<W>) -> fmt::Result {
        match self.labels.split_first() {
            None => Ok(()),
            Some((first, others)) => {
                first.fmt(f)?;
                for other in others {
                    write!(f, ", {other}")?;
                }
                Ok(())
            }
        }
    }
}
