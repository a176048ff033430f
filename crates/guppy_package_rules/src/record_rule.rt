//! The rules that records keep.

use std::fmt;

// It names every rule of records, since it is what a caller matches on; `first_broken` has no place for those
// that rows of packages, links and members cannot break.
/// A rule that records keep, printed by its code, as `K5`.
#[derive(Clone, Copy, Debug, PartialEq, Eq, Hash)]
pub enum RecordRule {
    /// Package ids are distinct.
    PackageIds,
    /// Versions are those that `semver` reads.
    Versions,
    /// Both ends of a link are package ids.
    LinkEnds,
    /// No two links have both ends and the name in common.
    LinkNames,
    /// A link has a line.
    LinkLines,
    /// Requirements are those that `semver` reads.
    Requirements,
    /// Members are package ids, and distinct.
    Members,
    /// The names of the members' packages are distinct.
    MemberNames,
    /// The members' paths are distinct by their components.
    MemberPaths,
    /// Default members are members.
    DefaultMembers,
    /// Targets of a package are distinct: at most one library or proc macro and one build script, and
    /// names distinct within each other kind.
    Targets,
    /// A link with an optional line has its name among its source's optional dependencies.
    OptionalLines,
    /// Feature names are distinct, and optional names are, in a package.
    FeatureNames,
    /// Binary ids are distinct.
    BinaryIds,
    /// A binary id holds no space and no line feed.
    BinaryIdTexts,
    /// Required features are feature names of the own package.
    RequiredFeatures,
    /// Group names are distinct and do not begin with `@`.
    Groups,
    /// The filters of groups and the default filter are accepted.
    Filters,
}

impl fmt::Display for RecordRule {
    ghost use Rattle.std.specs.Prelude.{Some};
    ghost use Rattle.guppy_package_rules.specs.RuleTexts.{rule_text};

    ghost output = { λ rule. Some (rule_text rule) };

    fn fmt<W: fmt::Write>(&self, f: &mut fmt::Formatter<W>) -> fmt::Result {
        f.write_str(match self {
            RecordRule::PackageIds => "K1",
            RecordRule::Versions => "K2",
            RecordRule::LinkEnds => "K3",
            RecordRule::LinkNames => "K4",
            RecordRule::LinkLines => "K5",
            RecordRule::Requirements => "K6",
            RecordRule::Members => "K7",
            RecordRule::MemberNames => "K8",
            RecordRule::MemberPaths => "K9",
            RecordRule::DefaultMembers => "K10",
            RecordRule::Targets => "K11",
            RecordRule::OptionalLines => "K12",
            RecordRule::FeatureNames => "K13",
            RecordRule::BinaryIds => "K14",
            RecordRule::BinaryIdTexts => "K15",
            RecordRule::RequiredFeatures => "K16",
            RecordRule::Groups => "K17",
            RecordRule::Filters => "K18",
        })
    }
}
