//! What a resolver of packages is told of a query.

ghost use Rattle.std.specs.Prelude.{◌≡◌, ◌==◌};
ghost use Rattle.std.specs.List.{list_any};
ghost use Rattle.guppy_package_graph.specs.ContextViews.{query_of};
ghost use Rattle.guppy_package_graph.specs.Views.{near_place};

use crate::package_link::PackageLink;
use crate::package_query::PackageQuery;
use guppy_package_parts::DependencyDirection;

/// The query for which a link is shown.
#[derive(Clone, Copy, Debug)]
pub struct PackageLinkContext<'a> {
    query: &'a PackageQuery<'a>,
}

impl<'a> PackageLinkContext<'a> {
    pub(crate) fn of(query: &'a PackageQuery<'a>) -> PackageLinkContext<'a>
        ensures { query_of result ≡ query.entry.now }
    {
        PackageLinkContext { query }
    }

    /// The query.
    pub fn query(&self) -> &'a PackageQuery<'a>
        ensures query { result.now ≡ query_of self.now }
    {
        self.query
    }

    /// The direction in which links are followed.
    pub fn direction(&self) -> DependencyDirection
        ensures direction { result ≡ (query_of self.now).direction }
    {
        self.query.direction()
    }

    /// Whether the link's near end, `from` in direction Forward, is an initial.
    pub fn starts_from_initial(&self, link: PackageLink<'_>) -> bool
        ensures initial { result ≡ list_any (λ v.
            v == near_place (query_of self.now).direction link.entry) (query_of self.now).initials }
    {
        let near = match self.direction() {
            DependencyDirection::Forward => link.from(),
            DependencyDirection::Reverse => link.to(),
        };
        self.query.starts_from(near.place())
    }
}
