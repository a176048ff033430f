//! Directed links between numbered nodes.

ghost use Rattle.std.specs.Prelude.{◌≡◌, ◌<◌, ◌↔◌, IsTrue, All};
ghost use Rattle.numbered_graph.specs.Links.{near_of, far_of, AreWithin};

use crate::direction::Direction;

/// A link from one node to another, or to the same.
#[derive(Clone, Copy, Debug, PartialEq, Eq)]
pub struct Link {
    /// Where it begins.
    pub from: usize,
    /// Where it ends.
    pub to: usize,
}

impl Link {
    /// The end from which the link is followed in a direction.
    pub fn near(self, direction: Direction) -> usize
        ensures value { result ≡ near_of direction self }
    {
        match direction {
            Direction::Forward => self.from,
            Direction::Reverse => self.to,
        }
    }

    /// The end to which the link is followed in a direction.
    pub fn far(self, direction: Direction) -> usize
        ensures value { result ≡ far_of direction self }
    {
        match direction {
            Direction::Forward => self.to,
            Direction::Reverse => self.from,
        }
    }
}

/// Whether both ends of each link are among so many nodes: what `Graph::new` asks for.
pub fn are_within(nodes: usize, links: &[Link]) -> bool
    ensures answer { IsTrue result ↔ AreWithin nodes links.now }
{
    links
        .iter()
        .all(|link| link.from < nodes && link.to < nodes)
}

/// Whether each number is that of one of so many nodes: what a walk asks of its starts.
pub fn are_below(nodes: usize, numbers: &[usize]) -> bool
    ensures answer { IsTrue result ↔ All (λ v. v < nodes) numbers.now }
{
    numbers.iter().all(|number| *number < nodes)
}
