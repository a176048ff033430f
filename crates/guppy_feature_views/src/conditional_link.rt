//! Links between features, with the lines that they stand on.

ghost use Rattle.std.specs.Prelude.{◌≡◌, ◌<◌, ◌↔◌, [], IsTrue, length};
ghost use Rattle.workspace_record.specs.declared.kinds.LineKind.TheVariants.{Normal, Build, Dev};
ghost use Rattle.guppy_package_parts.specs.DependencyKinds.{line_kind_of};
ghost use Rattle.guppy_package_parts.specs.Statuses.{IsStatusOf, specs_of};
ghost use Rattle.guppy_package_parts.specs.StatusViews.{status_view};

use crate::feature_metadata::FeatureMetadata;
use crate::package_links::PackageLinks;
use guppy_feature_nodes::{FeatureGraphData, LinkDeclarations};
use guppy_package_graph::{DependencyKind, PlatformStatus};
use guppy_package_parts::LineChoice;
use std::fmt;
use workspace_record::LineKind;

/// A link from one feature to another that stands on lines of a manifest: on all lines behind an
/// edge, or on the required or the optional ones alone.
#[derive(Clone, Copy)]
pub struct ConditionalLink<'g> {
    built: &'g FeatureGraphData<'g>,
    number: usize,
    declarations: LinkDeclarations,
    ghost in_range: { number < length built.now.edges },
}

impl<'g> ConditionalLink<'g> {
    ghost use Rattle.guppy_feature_views.specs.Views.{metadata_graph_of, node_of, link_view};
    ghost use Rattle.guppy_feature_views.specs.Links.{edge_of, line_places, lines_behind, link_numbers};
    ghost use Rattle.guppy_feature_views.specs.PackageLinkViews.{links_graph_of, numbers_left};

    /// The link that shows so much of the edge with a number.
    pub fn at(
        built: &'g FeatureGraphData<'g>,
        number: usize,
        declarations: LinkDeclarations,
    ) -> ConditionalLink<'g>
        requires { number < length built.now.edges }
        ensures link { link_view result ≡ record {
          graph = built.entry.now;
          number = number;
          declarations = declarations;
        } }
    {
        ConditionalLink {
            built,
            number,
            declarations,
        }
    }

    /// The feature that leads on.
    pub fn from(&self) -> FeatureMetadata<'g>
        ensures graph { metadata_graph_of result ≡ (link_view self.now).graph }
        ensures node { node_of result ≡ (edge_of (link_view self.now)).from }
    {
        let built = self.built;
        FeatureMetadata::at(built, built.edge(self.number).from)
    }

    /// The feature to which it leads.
    pub fn to(&self) -> FeatureMetadata<'g>
        ensures graph { metadata_graph_of result ≡ (link_view self.now).graph }
        ensures node { node_of result ≡ (edge_of (link_view self.now)).to }
    {
        let built = self.built;
        FeatureMetadata::at(built, built.edge(self.number).to)
    }

    /// Both features: the one that leads on, and the other.
    pub fn endpoints(&self) -> (FeatureMetadata<'g>, FeatureMetadata<'g>)
        ensures graphs { (metadata_graph_of result.0 ≡ (link_view self.now).graph)
            × (metadata_graph_of result.1 ≡ (link_view self.now).graph) }
        ensures nodes { (node_of result.0 ≡ (edge_of (link_view self.now)).from)
            × (node_of result.1 ≡ (edge_of (link_view self.now)).to) }
    {
        (self.from(), self.to())
    }

    /// Where it is on by normal lines.
    pub fn normal(&self) -> PlatformStatus<'g>
        ensures status { IsStatusOf (specs_of (lines_behind (link_view self.now) Normal))
            (status_view result) }
    {
        self.status_of(LineKind::Normal)
    }

    /// Where it is on by build lines.
    pub fn build(&self) -> PlatformStatus<'g>
        ensures status { IsStatusOf (specs_of (lines_behind (link_view self.now) Build))
            (status_view result) }
    {
        self.status_of(LineKind::Build)
    }

    /// Where it is on by dev lines.
    pub fn dev(&self) -> PlatformStatus<'g>
        ensures status { IsStatusOf (specs_of (lines_behind (link_view self.now) Dev))
            (status_view result) }
    {
        self.status_of(LineKind::Dev)
    }

    /// Where it is on by lines of a kind.
    pub fn status_for_kind(&self, kind: DependencyKind) -> PlatformStatus<'g>
        ensures status { IsStatusOf (specs_of (lines_behind (link_view self.now)
            (line_kind_of kind))) (status_view result) }
    {
        self.status_of(kind.line_kind())
    }

    #[tactic(auto, using(crate::proofs::LineFacts::lines_chosen))]
    fn status_of(&self, kind: LineKind) -> PlatformStatus<'g>
        ensures { IsStatusOf (specs_of (lines_behind (link_view self.now) kind))
            (status_view result) }
    {
        let built = self.built;
        let choice = LineChoice {
            kind,
            required: self.declarations.includes_required(),
            optional: self.declarations.includes_optional(),
        };
        let lines = built.edge(self.number).edge.lines();
        PlatformStatus::over_chosen(built.package_graph().link_rows(), lines, choice)
    }

    // A link with no line at all, which no resolve shows, is dev only too.
    /// Whether it stands on no normal and no build line.
    pub fn dev_only(&self) -> bool
        ensures answer { IsTrue result ↔ ((line_places (link_view self.now) Normal ≡ [])
            × (line_places (link_view self.now) Build ≡ [])) }
    {
        self.has_none(LineKind::Normal) && self.has_none(LineKind::Build)
    }

    #[tactic(auto, using(crate::proofs::LineFacts::none_passes))]
    fn has_none(&self, kind: LineKind) -> bool
        ensures { IsTrue result ↔ (line_places (link_view self.now) kind ≡ []) }
    {
        !self.built.has_line(self.number, self.declarations, kind)
    }

    /// The links of the lines that it stands on, each once, in the order of the record.
    pub fn package_links(&self) -> PackageLinks<'g>
        ensures graph { links_graph_of result ≡ (link_view self.now).graph.rows }
        ensures links { numbers_left result ≡ link_numbers (link_view self.now) }
    {
        let built = self.built;
        let numbers = built.links_shown(self.number, self.declarations);
        PackageLinks::of(built.package_graph(), numbers)
    }

    /// Which of the lines behind the edge it stands on.
    pub fn declarations(&self) -> LinkDeclarations
        ensures value { result ≡ (link_view self.now).declarations }
    {
        self.declarations
    }
}

impl fmt::Debug for ConditionalLink<'_> {
    fn fmt<W: fmt::Write>(&self, f: &mut fmt::Formatter<W>) -> fmt::Result {
        let (from, to) = self.endpoints();
        f.debug_tuple("ConditionalLink")
            .field(&from.feature_id())
            .field(&to.feature_id())
            .field(&self.declarations)
            .finish()
    }
}
