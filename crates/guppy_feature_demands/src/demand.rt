//! What leads from one feature to another.

use crate::feature_key::FeatureKey;

/// Why one feature leads to another. An entry with a slash names a dependency.
#[derive(Clone, Copy, Debug)]
pub enum EdgeKind<'g> {
    FeatureToBase,
    NamedFeature,
    NamedFeatureDepColon,
    StrongSlash(&'g str),
    WeakSlash(&'g str),
    DependenciesSection,
}

/// One feature leads to another, always or by a line, which is told by the number of its link and by
/// its own in the link.
#[derive(Clone, Copy)]
pub(crate) struct Demand<'g> {
    pub from: FeatureKey<'g>,
    pub to: FeatureKey<'g>,
    pub form: EdgeKind<'g>,
    pub line: Option<(usize, usize)>,
}

/// The same of two nodes.
#[derive(Clone, Copy)]
pub struct NumberedDemand<'g> {
    pub from: usize,
    pub to: usize,
    pub form: EdgeKind<'g>,
    pub line: Option<(usize, usize)>,
}
