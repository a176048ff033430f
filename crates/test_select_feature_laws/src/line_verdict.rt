//! Which links are followed on the platform of a table.

ghost use Rattle.std.specs.Prelude.{◌≡◌, ◌&&◌, ◌∷◌, [], IfOk, Option, List};
ghost use Rattle.std.specs.List.{list_any};
ghost use Rattle.workspace_record.specs.Tables.{answer};
ghost use Rattle.workspace_record.specs.Records.{Text};
ghost use Rattle.workspace_record.specs.declared.kinds.LineKind.TheVariants.{Dev};
ghost use Rattle.feature_account_rules.specs.Lines.{is_in_force};
ghost use Rattle.guppy_package_parts.specs.Statuses.{AskedPlatforms, IsStatusOf};
ghost use Rattle.guppy_package_parts.specs.PlatformViews.{spec_view};
ghost use Rattle.guppy_package_parts.specs.StatusViews.{status_view};
ghost use Rattle.guppy_package_parts.specs.DependencyKinds.{line_kind_of};
ghost use Rattle.guppy_feature_views.specs.Views.{link_view};
ghost use Rattle.test_select_feature_laws.specs.declared.table_platform.TablePlatform.{TablePlatform};

use crate::starting::starts_in_workspace;
use crate::table_platform::TablePlatform;
use guppy_feature_graph::{ConditionalLink, FeatureLinkContext, FeatureLinkVisitor};
use guppy_package_graph::{DependencyKind, EnabledTernary, PlatformSpec, PlatformStatus};
use std::alloc::{AllocError, Global};
use workspace_record::PlatformTable;

/// Follows a link where a line behind it counts on the table's platform: it is a normal or a build
/// line, or a dev line of a member of the workspace, and is in force there.
#[derive(Drop)]
pub struct LineVerdict<'t> {
    table: &'t PlatformTable,
    platform: PlatformSpec<TablePlatform<'t>>,
    ghost asked: { spec_view (λ (p : TablePlatform). answer p.table.now) platform ≡ AskedPlatforms (answer table.now ∷ []) },
}

impl<'t> LineVerdict<'t> {
    ghost use Rattle.std.specs.Prelude.{◌↔◌, IsTrue};
    ghost use Rattle.test_select_feature_laws.specs.Verdicts.{HasCountingLine, in_force_of, some_counts, starts_in_workspace, table_of};

    /// The verdict on the platform of a table.
    pub fn new(alloc: Global, table: &'t PlatformTable) -> Result<LineVerdict<'t>, AllocError>
        ensures table { IfOk result (λ v. table_of v ≡ table.entry.now) }
    {
        let mut platforms = Vec::new(alloc);
        platforms.push(TablePlatform { table })?;
        let platform = PlatformSpec::platforms(platforms);
        Ok(LineVerdict { table, platform })
    }

    // All lines behind an edge lead from one package, that of the feature from which the edge leads: so whether it
    // is a member is asked once for a link.
    /// Whether a line behind the link counts.
    pub fn accepts(&self, link: ConditionalLink<'_>) -> bool
        ensures counting { IsTrue result ↔ HasCountingLine (table_of self.now)
            (link_view link.entry) }
    {
        self.some_counts(link)
    }

    /// Whether a line counts: a normal or a build line, or a dev line of a member of the workspace.
    fn some_counts(&self, link: ConditionalLink<'_>) -> bool
        ensures { result ≡ some_counts (table_of self.now) (link_view link.entry) }
    {
        self.has_one_in_force(link, DependencyKind::Normal)
            || self.has_one_in_force(link, DependencyKind::Build)
            || self.dev_line_counts(link)
    }

    fn dev_line_counts(&self, link: ConditionalLink<'_>) -> bool
        ensures { result ≡ (starts_in_workspace (link_view link.entry)
            && in_force_of (table_of self.now) (link_view link.entry) Dev) }
    {
        starts_in_workspace(link) && self.has_one_in_force(link, DependencyKind::Development)
    }

    /// Whether a line of a kind is in force.
    fn has_one_in_force(&self, link: ConditionalLink<'_>, kind: DependencyKind) -> bool
        ensures { result ≡ in_force_of (table_of self.now) (link_view link.entry)
            (line_kind_of kind) }
    {
        self.is_in_force(link.status_for_kind(kind))
    }

    /// Whether one of the lines of a status is in force.
    fn is_in_force(&self, status: PlatformStatus<'_>) -> bool
        ensures { (specs : List (Option Text)) → IsStatusOf specs (status_view status.entry)
            → result ≡ list_any (is_in_force (table_of self.now)) specs }
    {
        match status.enabled_on(&self.platform) {
            EnabledTernary::Enabled => true,
            EnabledTernary::Unknown => self.table.unknown_counts,
            EnabledTernary::Disabled => false,
        }
    }
}

impl FeatureLinkVisitor for LineVerdict<'_> {
    ghost use Rattle.std.specs.Prelude.{◌≡◌, ◌↔◌, [], IsTrue};
    ghost use Rattle.test_select_feature_laws.specs.Verdicts.{HasCountingLine, table_of};

    ghost state = { λ v. [] };

    ghost steps = { λ v before shown answer after. (IsTrue answer ↔ HasCountingLine (table_of v) shown.1) × (after ≡ []) };

    fn visit_link(&mut self, _: &FeatureLinkContext<'_>, link: ConditionalLink<'_>) -> bool {
        self.accepts(link)
    }
}
