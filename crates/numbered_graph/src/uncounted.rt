//! Steps of a walk whose looks nobody counts.

ghost use Rattle.std.specs.Prelude.{◌≡◌, ◌<◌, IfNone, IfSome, None, length};
ghost use Rattle.numbered_graph.specs.Walks.{IsDue, IsShowing};

use crate::looks::Looks;
use crate::walk::Walk;
use std::marker::Brand;
use std::sync::ledger::{Blank, Ledger};

/// The next link to be shown, as `Walk::take` gives it.
pub fn take_uncounted(walk: &mut Walk<'_>) -> Option<usize>
    requires { walk.old.waiting ≡ None }
    ensures due { IfSome result (IsDue walk.old.direction walk.old.graph.links walk.old.starts
        walk.old.shown) }
    ensures room { IfSome result (λ _. length walk.old.shown < length walk.old.graph.links) }
    ensures all { IfNone result (IsShowing walk.old.direction walk.old.graph.links walk.old.starts
        walk.old.shown) }
    ensures kept { walk.new ≡ record walk.old { waiting = result; looked = walk.new.looked } }
{
    take_with_blank::<Brand>(walk, Blank::new(1))
}

fn take_with_blank<L: Ledger>(walk: &mut Walk<'_>, blank: Blank) -> Option<usize>
    requires waiting { walk.old.waiting ≡ None }
    requires name { blank.name ≡ L.name }
    requires parts { blank.parts ≡ L.parts }
    requires some { 0 < blank.parts }
    ensures due { IfSome result (IsDue walk.old.direction walk.old.graph.links walk.old.starts
        walk.old.shown) }
    ensures room { IfSome result (λ _. length walk.old.shown < length walk.old.graph.links) }
    ensures all { IfNone result (IsShowing walk.old.direction walk.old.graph.links walk.old.starts
        walk.old.shown) }
    ensures kept { walk.new ≡ record walk.old { waiting = result; looked = walk.new.looked } }
{
    let mut looks = Looks::<L>::new(blank);
    walk.take(&mut looks)
}
