//! The lines that a link between features stands on.

ghost use Rattle.std.specs.Prelude.{◌≡◌};
ghost use Rattle.guppy_feature_demands.specs.Kinds.{has_required, has_optional};

/// Which lines of a dependency declare what a link between two features shows.
#[derive(Clone, Copy, Debug, PartialEq, Eq)]
pub enum LinkDeclarations {
    /// All its lines.
    Unsplit,
    /// Its required lines alone.
    Required,
    /// Its optional lines alone.
    Optional,
}

impl LinkDeclarations {
    /// Whether required lines are shown.
    pub fn includes_required(self) -> bool
        ensures answer { result ≡ has_required self }
    {
        match self {
            LinkDeclarations::Unsplit | LinkDeclarations::Required => true,
            LinkDeclarations::Optional => false,
        }
    }

    /// Whether optional lines are shown.
    pub fn includes_optional(self) -> bool
        ensures answer { result ≡ has_optional self }
    {
        match self {
            LinkDeclarations::Unsplit | LinkDeclarations::Optional => true,
            LinkDeclarations::Required => false,
        }
    }
}
