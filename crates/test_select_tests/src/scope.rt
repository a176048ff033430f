//! Which links filters follow.

/// Which links the filters `deps` and `rdeps` follow.
#[derive(Clone, Copy, Debug, PartialEq, Eq, Hash)]
pub enum LinkScope {
    /// Those with a line that is on.
    SwitchedOn,
    /// All that are declared.
    Declared,
}
