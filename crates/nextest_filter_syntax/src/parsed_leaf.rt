//! The leaves of filters as they were written.

ghost use Rattle.std.specs.Prelude.{◌≡◌};
ghost use Rattle.nextest_filter_matchers.specs.Matchers.{matcher_of};
ghost use Rattle.nextest_filter_syntax.specs.PatternsAsWritten.{IsLeafAsWritten, IsMatcherAsWritten};
ghost use Rattle.nextest_filter_syntax.specs.Leaves.{Named, leaf_of, leaf_pattern};
ghost use Rattle.nextest_filter_matchers.specs.Copies.{pattern_of};
ghost use Rattle.nextest_filter_syntax.specs.LeafTexts as text;

use nextest_filter_matchers::{NameMatcher, SourceSpan};
use nextest_filter_tokens::{BuildPlatform, Predicate};
use std::alloc::{AllocError, Global};
use std::fmt;

/// A set of tests that a filter names, with where its matcher stands in the text.
#[derive(Debug, Drop, PartialEq, Eq)]
pub enum ParsedLeaf<S = SourceSpan> {
    /// All tests of packages.
    Package(NameMatcher, S),
    /// All tests of packages and of what they depend on.
    Deps(NameMatcher, S),
    /// All tests of packages and of what depends on them.
    Rdeps(NameMatcher, S),
    /// All tests of binaries of a kind.
    Kind(NameMatcher, S),
    /// All tests of binaries by their names.
    Binary(NameMatcher, S),
    /// All tests of binaries by their ids.
    BinaryId(NameMatcher, S),
    /// All tests that are built for a platform.
    Platform(BuildPlatform, S),
    /// Tests by their names.
    Test(NameMatcher, S),
    /// All tests of groups.
    Group(NameMatcher, S),
    /// All tests of packages that have a feature which is on.
    Feature(NameMatcher, S),
    /// The tests of the default filter.
    Default(S),
    All,
    None,
}

impl<S> ParsedLeaf<S> {
    ghost use Rattle.std.specs.Prelude.{◌≡◌};
    ghost use Rattle.nextest_filter_syntax.specs.Leaves.{is_runtime_leaf, leaf_of};

    /// Whether the leaf can be told only of a test, or only at run time.
    pub fn is_runtime_only(&self) -> bool
        ensures { result ≡ is_runtime_leaf (leaf_of self.now) }
    {
        matches!(
            self,
            ParsedLeaf::Test(..) | ParsedLeaf::Group(..) | ParsedLeaf::Default(_)
        )
    }
}

/// A leaf with its predicate apart.
#[derive(Drop)]
enum Parts<'l, S> {
    Named(Predicate, &'l NameMatcher, &'l S),
    Platform(BuildPlatform, &'l S),
    Default(&'l S),
    All,
    None,
}

/// The leaf of a predicate's matcher.
pub(crate) fn leaf_with<S>(predicate: Predicate, matcher: NameMatcher, span: S) -> ParsedLeaf<S>
    ensures value { leaf_of result ≡ Named predicate (matcher_of matcher) span }
    ensures pattern { leaf_pattern result ≡ pattern_of matcher }
    ensures as_written { IsMatcherAsWritten matcher → IsLeafAsWritten result }
{
    match predicate {
        Predicate::Package => ParsedLeaf::Package(matcher, span),
        Predicate::Deps => ParsedLeaf::Deps(matcher, span),
        Predicate::Rdeps => ParsedLeaf::Rdeps(matcher, span),
        Predicate::Kind => ParsedLeaf::Kind(matcher, span),
        Predicate::Binary => ParsedLeaf::Binary(matcher, span),
        Predicate::BinaryId => ParsedLeaf::BinaryId(matcher, span),
        Predicate::Test => ParsedLeaf::Test(matcher, span),
        Predicate::Group => ParsedLeaf::Group(matcher, span),
        Predicate::Feature => ParsedLeaf::Feature(matcher, span),
    }
}

/// How a predicate is written.
fn predicate_name(predicate: Predicate) -> &'static str
    ensures { result.now ≡ text.predicate_name predicate }
{
    match predicate {
        Predicate::Package => "package",
        Predicate::Deps => "deps",
        Predicate::Rdeps => "rdeps",
        Predicate::Kind => "kind",
        Predicate::Binary => "binary",
        Predicate::BinaryId => "binary_id",
        Predicate::Test => "test",
        Predicate::Group => "group",
        Predicate::Feature => "feature",
    }
}

impl<S> ParsedLeaf<S> {
    ghost use Rattle.std.specs.Prelude.{◌≡◌};
    ghost use Rattle.nextest_filter_syntax.specs.Leaves.{leaf_of, leaf_of_parts, leaf_pattern, parts_pattern};

    /// What the leaf is made of.
    fn parts(&self) -> Parts<'_, S>
        ensures leaf { leaf_of_parts result ≡ leaf_of self.now }
        ensures pattern { parts_pattern result ≡ leaf_pattern self.now }
    {
        match self {
            ParsedLeaf::Package(matcher, span) => Parts::Named(Predicate::Package, matcher, span),
            ParsedLeaf::Deps(matcher, span) => Parts::Named(Predicate::Deps, matcher, span),
            ParsedLeaf::Rdeps(matcher, span) => Parts::Named(Predicate::Rdeps, matcher, span),
            ParsedLeaf::Kind(matcher, span) => Parts::Named(Predicate::Kind, matcher, span),
            ParsedLeaf::Binary(matcher, span) => Parts::Named(Predicate::Binary, matcher, span),
            ParsedLeaf::BinaryId(matcher, span) => Parts::Named(Predicate::BinaryId, matcher, span),
            ParsedLeaf::Test(matcher, span) => Parts::Named(Predicate::Test, matcher, span),
            ParsedLeaf::Group(matcher, span) => Parts::Named(Predicate::Group, matcher, span),
            ParsedLeaf::Feature(matcher, span) => Parts::Named(Predicate::Feature, matcher, span),
            ParsedLeaf::Platform(platform, span) => Parts::Platform(*platform, span),
            ParsedLeaf::Default(span) => Parts::Default(span),
            ParsedLeaf::All => Parts::All,
            ParsedLeaf::None => Parts::None,
        }
    }
}

impl<S: Copy> ParsedLeaf<S> {
    ghost use Rattle.std.specs.Prelude.{◌≡◌, IfOk};
    ghost use Rattle.nextest_filter_syntax.specs.Leaves.{leaf_of, leaf_pattern};

    /// An equal leaf in memory of its own, which matches the same names.
    pub fn copy(&self, alloc: Global) -> Result<ParsedLeaf<S>, AllocError>
        ensures equal { IfOk result (λ c. leaf_of c ≡ leaf_of self.now) }
        ensures pattern { IfOk result (λ c. leaf_pattern c ≡ leaf_pattern self.now) }
    {
        match self.parts() {
            Parts::Named(predicate, matcher, span) => {
                let matcher = matcher.copy(alloc)?;
                Ok(leaf_with(predicate, matcher, *span))
            }
            Parts::Platform(platform, span) => Ok(ParsedLeaf::Platform(platform, *span)),
            Parts::Default(span) => Ok(ParsedLeaf::Default(*span)),
            Parts::All => Ok(ParsedLeaf::All),
            Parts::None => Ok(ParsedLeaf::None),
        }
    }
}

impl<S> fmt::Display for ParsedLeaf<S> {
    ghost use Rattle.std.specs.Prelude.{Some};
    ghost use Rattle.nextest_filter_syntax.specs.Leaves.{leaf_of};
    ghost use Rattle.nextest_filter_syntax.specs.LeafTexts.{leaf_text};

    ghost output = { λ l. Some (leaf_text (leaf_of l)) };

    fn fmt<W: fmt::Write>(&self, f: &mut fmt::Formatter<W>) -> fmt::Result {
        match self.parts() {
            Parts::Named(predicate, matcher, _) => {
                let name = predicate_name(predicate);
                write!(f, "{name}({matcher})")
            }
            Parts::Platform(platform, _) => write!(f, "platform({platform})"),
            Parts::Default(_) => f.write_str("default()"),
            Parts::All => f.write_str("all()"),
            Parts::None => f.write_str("none()"),
        }
    }
}
