//! The iterator over a package's targets.

ghost use Rattle.std.specs.Prelude.{◌≡◌, length};
ghost use Rattle.guppy_package_table.specs.PackageDetailsViews.{targets_left};

use guppy_package_parts::{BuildTarget, TargetRow};

/// Targets of a package, in the order of its row.
#[derive(Clone, Debug, Drop)]
pub struct BuildTargets<'g> {
    left: &'g [TargetRow],
}

impl<'g> BuildTargets<'g> {
    pub(crate) fn of(left: &'g [TargetRow]) -> BuildTargets<'g>
        ensures { targets_left result ≡ left.entry.now }
    {
        BuildTargets { left }
    }
}

impl<'g> Iterator for BuildTargets<'g> {
    type Item = BuildTarget<'g>;

    ghost use Rattle.std.specs.Iterator.{YieldsFirstBy, item_count};
    ghost use Rattle.guppy_package_parts.specs.BuildTargetViews.{target_view};
    ghost use Rattle.guppy_package_table.specs.PackageDetailsViews.{targets_left};

    ghost next_gives = { YieldsFirstBy target_view targets_left };

    ghost remaining = { item_count targets_left };

    fn next(&mut self) -> Option<BuildTarget<'g>> {
        let (first, others) = self.left.split_first()?;
        self.left = others;
        Some(BuildTarget::of(first))
    }

    fn size_hint(&self) -> (usize, Option<usize>) {
        (self.left.len(), Some(self.left.len()))
    }
}

impl<'g> DoubleEndedIterator for BuildTargets<'g> {
    ghost use Rattle.std.specs.Iterator.{YieldsLastBy};
    ghost use Rattle.guppy_package_parts.specs.BuildTargetViews.{target_view};
    ghost use Rattle.guppy_package_table.specs.PackageDetailsViews.{targets_left};

    ghost next_back_gives = { YieldsLastBy target_view targets_left };

    fn next_back(&mut self) -> Option<BuildTarget<'g>> {
        let (last, others) = self.left.split_last()?;
        self.left = others;
        Some(BuildTarget::of(last))
    }
}

impl ExactSizeIterator for BuildTargets<'_> {
    fn len(&self) -> usize {
        self.left.len()
    }
}
