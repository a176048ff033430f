//! The two ways in which links can be followed.

/// Which way links are followed: from where a link begins to where it ends, or back.
#[derive(Clone, Copy, Debug, PartialEq, Eq)]
pub enum Direction {
    /// From `from` to `to`.
    Forward,
    /// From `to` to `from`.
    Reverse,
}
