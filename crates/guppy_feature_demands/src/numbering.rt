//! Demands between the nodes that there are.

ghost use Rattle.std.specs.Prelude.{◌≡◌, OnOk, ◌++◌, length, map};
ghost use Rattle.guppy_feature_demands.specs.Demands.{is_between_nodes, kept_demands, with_numbers};
ghost use Rattle.guppy_feature_demands.specs.DemandViews.{demand_view, numbered_view};
ghost use Rattle.guppy_feature_demands.specs.HashedViews.{hashed_view};
ghost use Rattle.guppy_feature_demands.specs.Nodes.{number_of};

use crate::demand::{Demand, NumberedDemand};
use crate::feature_key::FeatureKey;
use crate::feature_label::FeatureLabel;
use crate::hashed_id::HashedId;
use crate::nodes::NodeTable;
use std::alloc::AllocError;

/// Adds the demands between two different nodes, which are told by their numbers.
pub(crate) fn keep_demands<'g>(
    nodes: &NodeTable<'g>,
    demands: &[Demand<'g>],
    kept: &mut Vec<NumberedDemand<'g>>,
) -> Result<(), AllocError>
    ensures { OnOk result (map numbered_view kept.new.items
        ≡ map numbered_view kept.old.items
        ++ kept_demands nodes.now (map demand_view demands.now)) }
{
    let mut from = LastNumber::of(nodes);
    let mut base = LastNumber::of(nodes);
    let mut to = LastNumber::of(nodes);
    for demand in demands {
        let numbered = with_numbers(&mut from, &mut base, &mut to, *demand);
        if is_between(nodes, numbered) {
            kept.push(numbered)?;
        }
    }
    Ok(())
}

// Demands that lead to a package and to features of it take turns, so both are kept in mind.
fn with_numbers<'g>(
    from: &mut LastNumber<'_, 'g>,
    base: &mut LastNumber<'_, 'g>,
    to: &mut LastNumber<'_, 'g>,
    demand: Demand<'g>,
) -> NumberedDemand<'g>
    requires base { base.old.nodes.now ≡ from.old.nodes.now }
    requires to { to.old.nodes.now ≡ from.old.nodes.now }
    ensures value { numbered_view result ≡ with_numbers from.old.nodes.now
        (demand_view demand.entry) }
    ensures from { from.new.nodes.now ≡ from.old.nodes.now }
    ensures base { base.new.nodes.now ≡ base.old.nodes.now }
    ensures to { to.new.nodes.now ≡ to.old.nodes.now }
{
    NumberedDemand {
        from: from.number_of(demand.from),
        to: match demand.to.label {
            FeatureLabel::Base => base.number_of(demand.to),
            FeatureLabel::Named(_) | FeatureLabel::OptionalDependency(_) => {
                to.number_of(demand.to)
            }
        },
        form: demand.form,
        line: demand.line,
    }
}

/// The feature that was asked for last, and its number: demands that start at one feature, or lead to
/// one, follow each other.
#[derive(Clone, Copy)]
struct LastNumber<'a, 'g> {
    nodes: &'a NodeTable<'g>,
    feature: FeatureKey<'g>,
    number: usize,
    ghost known: { number ≡ number_of nodes.now (hashed_view feature) },
}

impl<'a, 'g> LastNumber<'a, 'g> {
    fn of(nodes: &'a NodeTable<'g>) -> LastNumber<'a, 'g>
        ensures { result.nodes.now ≡ nodes.entry.now }
    {
        let feature = FeatureKey::base(HashedId::of(""));
        let number = nodes.place_of(feature);
        LastNumber {
            nodes,
            feature,
            number,
        }
    }

    /// The number of a feature; the number of features where there is none.
    fn number_of(&mut self, feature: FeatureKey<'g>) -> usize
        ensures number { result ≡ number_of self.old.nodes.now (hashed_view feature.entry) }
        ensures nodes { self.new.nodes.now ≡ self.old.nodes.now }
    {
        if feature != self.feature {
            let nodes = self.nodes;
            let number = nodes.place_of(feature);
            *self = LastNumber {
                nodes,
                feature,
                number,
            };
        }
        self.number
    }
}

fn is_between(nodes: &NodeTable<'_>, demand: NumberedDemand<'_>) -> bool
    ensures { result ≡ is_between_nodes (length nodes.now) (numbered_view demand.entry) }
{
    let count = nodes.len();
    demand.from < count && demand.to < count && !(demand.from == demand.to)
}
