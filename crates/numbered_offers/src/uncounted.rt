//! Steps of a walk over offers whose looks nobody counts.

ghost use Rattle.std.specs.Prelude.{◌≡◌, ◌+◌, ◌<◌, ◌≤◌, IfNone, IfSome, None, Some, count_by, length, true};
ghost use Rattle.std.specs.Option.{is_none};
ghost use Rattle.numbered_offers.specs.declared.offer.Offer.{Offer};
ghost use Rattle.numbered_offers.specs.Dues.{asks};
ghost use Rattle.numbered_offers.specs.Edges.{is_weak};
ghost use Rattle.numbered_offers.specs.Runs.{IsDue, IsLegalRun};

use crate::due::Due;
use crate::offer_walk::OfferWalk;
use numbered_graph::Looks;
use std::marker::Brand;
use std::sync::ledger::{Blank, Ledger};

/// What is offered next, as `OfferWalk::take` gives it.
pub fn take_uncounted(walk: &mut OfferWalk<'_>) -> Option<Due>
    requires { walk.old.waiting ≡ None }
    ensures due { IfSome result (λ due. (o : Offer) → asks (Some due) o ≡ true
        → IsDue walk.old.direction walk.old.graph.edges walk.old.starts walk.old.run o) }
    ensures all { IfNone result (IsLegalRun walk.old.direction walk.old.graph.edges walk.old.starts
        walk.old.run) }
    ensures kept { walk.new ≡ record walk.old {
      waiting = result;
      ended = is_none result;
      passed = walk.new.passed;
      looked = walk.new.looked;
    } }
    ensures rises { walk.old.passed ≤ walk.new.passed }
    ensures room { IfSome result (λ _. walk.new.passed
        < length walk.new.graph.edges + count_by is_weak walk.new.graph.edges) }
{
    take_with_blank::<Brand>(walk, Blank::new(1))
}

fn take_with_blank<L: Ledger>(walk: &mut OfferWalk<'_>, blank: Blank) -> Option<Due>
    requires waiting { walk.old.waiting ≡ None }
    requires name { blank.name ≡ L.name }
    requires parts { blank.parts ≡ L.parts }
    requires some { 0 < blank.parts }
    ensures due { IfSome result (λ due. (o : Offer) → asks (Some due) o ≡ true
        → IsDue walk.old.direction walk.old.graph.edges walk.old.starts walk.old.run o) }
    ensures all { IfNone result (IsLegalRun walk.old.direction walk.old.graph.edges walk.old.starts
        walk.old.run) }
    ensures kept { walk.new ≡ record walk.old {
      waiting = result;
      ended = is_none result;
      passed = walk.new.passed;
      looked = walk.new.looked;
    } }
    ensures rises { walk.old.passed ≤ walk.new.passed }
    ensures room { IfSome result (λ _. walk.new.passed
        < length walk.new.graph.edges + count_by is_weak walk.new.graph.edges) }
{
    let mut looks = Looks::<L>::new(blank);
    walk.take(&mut looks)
}
