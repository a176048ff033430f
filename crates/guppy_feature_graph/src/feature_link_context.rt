//! What a resolver of features is told of a query.

ghost use Rattle.std.specs.Prelude.{◌≡◌, ◌↔◌, Contains, IsTrue};
ghost use Rattle.guppy_feature_graph.specs.ContextViews.{query_of};
ghost use Rattle.guppy_feature_graph.specs.Resolves.{near_node};
ghost use Rattle.guppy_feature_views.specs.Views.{link_view};

use crate::feature_query::FeatureQuery;
use guppy_feature_views::ConditionalLink;
use guppy_package_graph::DependencyDirection;
use std::fmt;

/// The query for which a link is shown.
#[derive(Clone, Copy)]
pub struct FeatureLinkContext<'a> {
    query: &'a FeatureQuery<'a>,
}

impl<'a> FeatureLinkContext<'a> {
    pub(crate) fn of(query: &'a FeatureQuery<'a>) -> FeatureLinkContext<'a>
        ensures { query_of result ≡ query.entry.now }
    {
        FeatureLinkContext { query }
    }

    /// The query.
    pub fn query(&self) -> &'a FeatureQuery<'a>
        ensures query { result.now ≡ query_of self.now }
    {
        self.query
    }

    /// The direction in which links are followed.
    pub fn direction(&self) -> DependencyDirection
        ensures direction { result ≡ (query_of self.now).direction }
    {
        self.query.direction()
    }

    // By reference, as in guppy; a link of another graph is compared by the number of its near feature.
    /// Whether the link's near end, `from` in direction Forward, is an initial.
    pub fn starts_from_initial(&self, link: &ConditionalLink<'_>) -> bool
        ensures initial { IsTrue result ↔ Contains (query_of self.now).initials
            (near_node (query_of self.now).direction (link_view link.now)) }
    {
        let near = match self.direction() {
            DependencyDirection::Forward => link.from().node(),
            DependencyDirection::Reverse => link.to().node(),
        };
        self.query.initials().included().contains(near)
    }
}

impl fmt::Debug for FeatureLinkContext<'_> {
    fn fmt<W: fmt::Write>(&self, f: &mut fmt::Formatter<W>) -> fmt::Result {
        f.debug_struct("FeatureLinkContext")
            .field("direction", &self.direction())
            .finish_non_exhaustive()
    }
}
