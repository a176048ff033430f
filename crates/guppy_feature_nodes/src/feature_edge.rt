//! What stands behind an edge of a feature graph.

ghost use Rattle.std.specs.Prelude.{◌≡◌};
ghost use Rattle.std.specs.List.Sorted.{IsStrictlySortedBy};
ghost use Rattle.guppy_feature_nodes.specs.Joining.{place_cmp};
ghost use Rattle.guppy_feature_nodes.specs.GraphEdges.{ByLines, ByStrongEntries, ByWeakEntries, is_always};
ghost use Rattle.guppy_feature_nodes.specs.EdgeViews.{form_view, lines_view, link_lines};

use guppy_package_parts::SortedSet;

/// Why one feature leads to another.
#[derive(Debug, Drop)]
pub enum FeatureEdge {
    /// Each feature leads to its package.
    FeatureToBase,
    /// Lines of a manifest's dependencies lead from the package, or from an optional dependency.
    DependenciesSection(ConditionalLinkImpl),
    /// A feature enables another of its package.
    NamedFeature,
    /// A feature enables an optional dependency.
    NamedFeatureDepColon,
    /// A feature enables one of a dependency.
    NamedFeatureWithSlash(SlashForm),
}

/// How an entry with a slash leads on.
#[derive(Debug, Drop)]
pub enum SlashForm {
    /// Wherever one of the lines is on.
    Strong(EnabledLink),
    /// Where the dependency is on for another reason.
    Weak(WeakSlashImpl),
}

/// The lines behind weak entries, and the node for which the optional ones wait.
#[derive(Debug, Drop)]
pub struct WeakSlashImpl {
    link: EnabledLink,
    index: WeakIndex,
}

/// Lines that lead on where one of them is on.
#[derive(Debug, Drop)]
pub struct EnabledLink {
    link: ConditionalLinkImpl,
}

/// Lines, ascending, each told by the number of its link and by its own there.
#[derive(Debug, Drop)]
pub struct ConditionalLinkImpl {
    lines: SortedSet<(usize, usize)>,
}

/// The number of the node of an optional dependency; the number of nodes where there is none.
#[derive(Clone, Copy, Debug, PartialEq, Eq, PartialOrd, Ord, Hash)]
pub struct WeakIndex {
    node: usize,
}

impl FeatureEdge {
    pub(crate) fn by_lines(lines: SortedSet<(usize, usize)>) -> FeatureEdge
        ensures form { form_view result ≡ ByLines }
        ensures lines { lines_view result ≡ lines }
    {
        FeatureEdge::DependenciesSection(ConditionalLinkImpl { lines })
    }

    pub(crate) fn strong(lines: SortedSet<(usize, usize)>) -> FeatureEdge
        ensures form { form_view result ≡ ByStrongEntries }
        ensures lines { lines_view result ≡ lines }
    {
        let link = ConditionalLinkImpl { lines };
        FeatureEdge::NamedFeatureWithSlash(SlashForm::Strong(EnabledLink { link }))
    }

    pub(crate) fn weak(lines: SortedSet<(usize, usize)>, node: usize) -> FeatureEdge
        ensures form { form_view result ≡ ByWeakEntries node }
        ensures lines { lines_view result ≡ lines }
    {
        let link = EnabledLink {
            link: ConditionalLinkImpl { lines },
        };
        let index = WeakIndex { node };
        FeatureEdge::NamedFeatureWithSlash(SlashForm::Weak(WeakSlashImpl { link, index }))
    }

    /// Whether the edge is crossed always, whichever lines are on.
    pub fn is_unconditional(&self) -> bool
        ensures answer { result ≡ is_always (form_view self.now) }
    {
        match self {
            FeatureEdge::FeatureToBase
            | FeatureEdge::NamedFeature
            | FeatureEdge::NamedFeatureDepColon => true,
            FeatureEdge::DependenciesSection(_) | FeatureEdge::NamedFeatureWithSlash(_) => false,
        }
    }

    /// The lines behind the edge, ascending, each told by the number of its link and by its own there;
    /// none where it is crossed always.
    pub fn lines(&self) -> &[(usize, usize)]
        ensures value { result.now ≡ lines_view self.now }
        ensures ascending { IsStrictlySortedBy place_cmp result.now }
    {
        match self {
            FeatureEdge::FeatureToBase
            | FeatureEdge::NamedFeature
            | FeatureEdge::NamedFeatureDepColon => &[],
            FeatureEdge::DependenciesSection(link) => link.lines(),
            FeatureEdge::NamedFeatureWithSlash(SlashForm::Strong(enabled)) => enabled.link.lines(),
            FeatureEdge::NamedFeatureWithSlash(SlashForm::Weak(weak)) => weak.link.link.lines(),
        }
    }
}

impl WeakSlashImpl {
    /// The node for which the optional lines wait.
    pub fn index(&self) -> WeakIndex
        ensures value { result ≡ self.now.index }
    {
        self.index
    }
}

impl ConditionalLinkImpl {
    pub(crate) fn lines(&self) -> &[(usize, usize)]
        ensures value { result.now ≡ link_lines self.now }
        ensures ascending { IsStrictlySortedBy place_cmp result.now }
    {
        self.lines.as_slice()
    }
}

impl WeakIndex {
    /// The node's number.
    pub fn node(self) -> usize
        ensures value { result ≡ self.node }
    {
        self.node
    }
}
