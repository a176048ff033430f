//! The iterator over names of a package's features.

ghost use Rattle.std.specs.Prelude.{◌≡◌, map};
ghost use Rattle.guppy_package_table.specs.PackageDetailsViews.{names_left};

use guppy_package_parts::FeatureRow;

/// Names of features of a package, in the order of its row.
#[derive(Clone, Debug, Drop)]
pub struct NamedFeatures<'g> {
    left: &'g [FeatureRow],
}

impl<'g> NamedFeatures<'g> {
    pub(crate) fn of(left: &'g [FeatureRow]) -> NamedFeatures<'g>
        ensures { names_left result ≡ map (λ f. f.name) left.entry.now }
    {
        NamedFeatures { left }
    }
}

impl<'g> Iterator for NamedFeatures<'g> {
    type Item = &'g str;

    ghost use Rattle.std.specs.Iterator.{YieldsFirstBy, item_count};
    ghost use Rattle.guppy_package_table.specs.PackageDetailsViews.{names_left};

    ghost next_gives = { YieldsFirstBy (λ name. name.now) names_left };

    ghost remaining = { item_count names_left };

    fn next(&mut self) -> Option<&'g str> {
        let (first, others) = self.left.split_first()?;
        self.left = others;
        Some(first.name.as_str())
    }

    fn size_hint(&self) -> (usize, Option<usize>) {
        (self.left.len(), Some(self.left.len()))
    }
}

impl<'g> DoubleEndedIterator for NamedFeatures<'g> {
    ghost use Rattle.std.specs.Iterator.{YieldsLastBy};
    ghost use Rattle.guppy_package_table.specs.PackageDetailsViews.{names_left};

    ghost next_back_gives = { YieldsLastBy (λ name. name.now) names_left };

    fn next_back(&mut self) -> Option<&'g str> {
        let (last, others) = self.left.split_last()?;
        self.left = others;
        Some(last.name.as_str())
    }
}

impl ExactSizeIterator for NamedFeatures<'_> {
    fn len(&self) -> usize {
        self.left.len()
    }
}
