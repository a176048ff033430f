//! The two directions of links.

ghost use Rattle.std.specs.Prelude.{◌≡◌};
ghost use Rattle.guppy_package_parts.specs.Directions.{opposite_of};

/// Along links, from a package to what it depends on, or against them.
#[derive(Clone, Copy, Debug, PartialEq, Eq, PartialOrd, Ord, Hash)]
pub enum DependencyDirection {
    /// From a package to what it depends on.
    Forward,
    /// From a package to what depends on it.
    Reverse,
}

impl DependencyDirection {
    /// The other direction.
    pub fn opposite(self) -> DependencyDirection
        ensures { result ≡ opposite_of self }
    {
        match self {
            DependencyDirection::Forward => DependencyDirection::Reverse,
            DependencyDirection::Reverse => DependencyDirection::Forward,
        }
    }
}
