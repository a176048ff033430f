//! Which binaries are asked for their tests.

/// Which available binaries a selection asks for their tests.
#[derive(Clone, Copy, Debug, PartialEq, Eq)]
pub enum AskedBinaries {
    /// Those of which some test may be chosen.
    LetThrough,
    /// Each.
    Available,
}
