//! Walks, components and orders over graphs whose nodes are numbers.
//!
//! A `Graph` is so many nodes and a list of links, told by their places in it. The links of each
//! node are chained by both ends when it is made (`chains.rt`, `AreChains`), which its invariant
//! keeps and no clause above mentions. In contracts a graph is its number of nodes and its links, a
//! set of nodes a list of flags, and a walk is where it goes, what it has shown, the link that waits
//! for its answer, and its looks.
//!
//! A graph above puts its visitor between `take` and `answer` of a `Walk`; the loop's invariant says
//! that the walk is the graph's and idle, that what was shown chains by the visitor's relation, and
//! how many looks were taken; its measure is the links less what was shown (`take`, clause `room`).
//! `reach_over_counted` is the smallest such loop.
//!
//! Components come from one walk against the links (`components.rt`): the open nodes are a path cut
//! into knots, the nodes of a knot lead to each other and to all earlier knots, and a knot with no
//! link left is a component and gets the next rank. Nothing recurses. The invariant is
//! `specs/Searches.antt`; each step has a lemma file in `proofs/` (`SearchOpening`, `SearchJoining`,
//! `SearchPassing`, `SearchClosing`, `SearchEnds`). A listing sorts the nodes by rank and, within a
//! component, by rank over the firm links; cycles and roots go by ranks too. `Listed` goes over the
//! members of a set in a listing's order, or in its reverse, from both ends.
//!
//! Begin with `specs/Paths.antt`, then `walk.rt`; `specs/Listings.antt` has the order of listings. The
//! search in `components.rt` and all that is private may be changed freely; both graphs stand on the
//! public clauses.
#![tactic(auto)]

mod chains;
mod components;
mod cycle_lists;
mod direction;
mod flags;
mod graph;
mod link;
mod listed;
mod listings;
mod looks;
mod node_set;
mod numbered_cycles;
mod reaching;
mod roots;
mod uncounted;
mod walk;

pub use crate::components::component_ranks;
pub use crate::cycle_lists::{cycles, listed_cycles};
pub use crate::direction::Direction;
pub use crate::graph::Graph;
pub use crate::link::{Link, are_below, are_within};
pub use crate::listed::Listed;
pub use crate::listings::{listed_members, listing};
pub use crate::looks::Looks;
pub use crate::node_set::NodeSet;
pub use crate::numbered_cycles::NumberedCycles;
pub use crate::reaching::{leads_to, reach, reach_counted, reach_over, reach_over_counted};
pub use crate::roots::{links_inside, root_nodes};
pub use crate::uncounted::take_uncounted;
pub use crate::walk::Walk;
