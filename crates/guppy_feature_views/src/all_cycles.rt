//! The iterator over cycles of features.

ghost use Rattle.std.specs.Prelude.{◌<◌, All, length};

use crate::feature_ids_at::FeatureIdsAt;
use guppy_feature_nodes::FeatureGraphData;
use list_facts::write_entries;
use std::fmt;

/// The cycles of a graph, each as the ids of its features, from both ends.
#[derive(Clone, Copy)]
pub struct AllCycles<'g, 'a> {
    built: &'g FeatureGraphData<'g>,
    cycles: &'a [Vec<usize>],
    ghost in_range: { All (λ c. All (λ v. v < length built.now.nodes) c.items) cycles.now },
}

impl<'g, 'a> AllCycles<'g, 'a> {
    ghost use Rattle.std.specs.Prelude.{◌≡◌, map};
    ghost use Rattle.guppy_feature_views.specs.CycleViews.{cycles_graph_of, cycles_left};

    /// Those of these nodes.
    pub fn of(built: &'g FeatureGraphData<'g>, cycles: &'a [Vec<usize>]) -> AllCycles<'g, 'a>
        requires { All (λ c. All (λ v. v < length built.now.nodes) c.items) cycles.now }
        ensures graph { cycles_graph_of result ≡ built.entry.now }
        ensures cycles { cycles_left result ≡ map (λ c. c.items) cycles.entry.now }
    {
        AllCycles { built, cycles }
    }
}

impl<'g, 'a> Iterator for AllCycles<'g, 'a> {
    type Item = FeatureIdsAt<'g, 'a>;

    ghost use Rattle.std.specs.Iterator.{YieldsFirstBy, item_count};
    ghost use Rattle.guppy_feature_views.specs.CycleViews.{all_cycles_left, seen_cycle};

    ghost next_gives = { YieldsFirstBy seen_cycle all_cycles_left };

    ghost remaining = { item_count all_cycles_left };

    fn next(&mut self) -> Option<FeatureIdsAt<'g, 'a>> {
        let (first, others) = self.cycles.split_first()?;
        self.cycles = others;
        Some(FeatureIdsAt::of(self.built, first))
    }

    fn size_hint(&self) -> (usize, Option<usize>) {
        (self.cycles.len(), Some(self.cycles.len()))
    }
}

impl<'g, 'a> DoubleEndedIterator for AllCycles<'g, 'a> {
    ghost use Rattle.std.specs.Iterator.{YieldsLastBy};
    ghost use Rattle.guppy_feature_views.specs.CycleViews.{all_cycles_left, seen_cycle};

    ghost next_back_gives = { YieldsLastBy seen_cycle all_cycles_left };

    fn next_back(&mut self) -> Option<FeatureIdsAt<'g, 'a>> {
        let (last, others) = self.cycles.split_last()?;
        self.cycles = others;
        Some(FeatureIdsAt::of(self.built, last))
    }
}

impl ExactSizeIterator for AllCycles<'_, '_> {
    fn len(&self) -> usize {
        self.cycles.len()
    }
}

/// Lists what is still to come.
impl fmt::Debug for AllCycles<'_, '_> {
    fn fmt<W: fmt::Write>(&self, f: &mut fmt::Formatter<W>) -> fmt::Result {
        write_entries(f, *self)
    }
}
