//! The kinds of features.

ghost use Rattle.std.specs.Prelude.{◌≡◌};
ghost use Rattle.guppy_feature_demands.specs.Kinds.{is_base_kind, is_named_kind, is_dep_kind};

/// What a feature stands for, without its name.
#[derive(Clone, Copy, Debug, PartialEq, Eq, PartialOrd, Ord, Hash)]
pub enum FeatureKind {
    /// The package itself.
    Base,
    /// A feature that the package's manifest names.
    Named,
    /// An optional dependency of the package.
    OptionalDependency,
}

impl FeatureKind {
    /// Whether such features are packages themselves.
    pub fn is_base(self) -> bool
        ensures answer { result ≡ is_base_kind self }
    {
        match self {
            FeatureKind::Base => true,
            FeatureKind::Named | FeatureKind::OptionalDependency => false,
        }
    }

    /// Whether such features are named by a manifest.
    pub fn is_named(self) -> bool
        ensures answer { result ≡ is_named_kind self }
    {
        match self {
            FeatureKind::Named => true,
            FeatureKind::Base | FeatureKind::OptionalDependency => false,
        }
    }

    /// Whether such features are optional dependencies.
    pub fn is_optional_dependency(self) -> bool
        ensures answer { result ≡ is_dep_kind self }
    {
        match self {
            FeatureKind::OptionalDependency => true,
            FeatureKind::Base | FeatureKind::Named => false,
        }
    }
}
