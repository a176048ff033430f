//! The direction in which edges between numbered features are followed.

ghost use Rattle.std.specs.Prelude.{◌≡◌};
ghost use Rattle.guppy_package_graph.specs.Directions.{direction_of};

use guppy_package_graph::DependencyDirection;
use numbered_graph::Direction;

pub(crate) fn direction_of(direction: DependencyDirection) -> Direction
    ensures { result ≡ direction_of direction }
{
    match direction {
        DependencyDirection::Forward => Direction::Forward,
        DependencyDirection::Reverse => Direction::Reverse,
    }
}
