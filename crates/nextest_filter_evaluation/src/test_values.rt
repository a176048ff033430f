//! Whether filters hold of tests.

ghost use Rattle.std.specs.Prelude.{◌≡◌, ◌↔◌, true, false, IfOk, IsOk, IsTrue};
ghost use Rattle.nextest_filter_evaluation.specs.NameTests.{NameTest};
ghost use Rattle.nextest_binaries.specs.Queries.{test_of};
ghost use Rattle.nextest_filter_evaluation.specs.Formulas.{Holds, has_leaf};
ghost use Rattle.nextest_filter_evaluation.specs.Compiled.{compiled_of, has_pattern, is_default, is_group, leaf_of};
ghost use Rattle.nextest_filter_evaluation.specs.Meaning.{LeafHolds, Passes};

use crate::compiled_expr::CompiledExpr;
use crate::eval_context::EvalContext;
use crate::filterset_leaf::FiltersetLeaf;
use crate::groups::GroupLookup;
use crate::lent_lookup::LentLookup;
use crate::name_tests::suits;
use crate::no_groups::NoGroups;
use nextest_binaries::TestQuery;
use std::alloc::{AllocError, Global};

impl CompiledExpr {
    /// Whether the filter holds of the test. It may not name groups. Memory is wanted where the filter
    /// or the default filter has a pattern.
    pub fn matches_test(
        &self,
        alloc: Global,
        query: &TestQuery<'_>,
        cx: &EvalContext<'_>,
    ) -> Result<bool, AllocError>
        requires groups { has_leaf is_group (compiled_of self.now) ≡ false }
        ensures holds { IfOk result (λ r. IsTrue r
            ↔ Passes (compiled_of cx.now.default_filter.now) (λ _. ⊥) (test_of query.now)
            (compiled_of self.now)) }
        ensures answers { has_leaf has_pattern (compiled_of self.now) ≡ false
            → has_leaf has_pattern (compiled_of cx.now.default_filter.now) ≡ false → IsOk result }
    {
        self.matches_test_by(alloc, query, cx, &NoGroups)
    }

    /// Whether the filter holds of the test, whose groups the lookup knows. Memory is wanted where the
    /// filter or the default filter has a pattern, and where the lookup wants it.
    pub fn matches_test_with_groups(
        &self,
        alloc: Global,
        query: &TestQuery<'_>,
        cx: &EvalContext<'_>,
        groups: &dyn GroupLookup,
    ) -> Result<bool, AllocError>
        ensures holds { IfOk result (λ r. IsTrue r
            ↔ Passes (compiled_of cx.now.default_filter.now) (member groups.now (test_of query.now))
            (test_of query.now) (compiled_of self.now)) }
        ensures answers { has_leaf has_pattern (compiled_of self.now) ≡ false
            → has_leaf has_pattern (compiled_of cx.now.default_filter.now) ≡ false
            → (has_leaf is_group (compiled_of self.now) ≡ true → (m : NameTest)
            → ready groups.now (test_of query.now) m) → IsOk result }
    {
        self.matches_test_by(alloc, query, cx, &LentLookup { lookup: groups })
    }

    /// The same by a lookup of a known type.
    pub fn matches_test_by<G: GroupLookup>(
        &self,
        alloc: Global,
        query: &TestQuery<'_>,
        cx: &EvalContext<'_>,
        groups: &G,
    ) -> Result<bool, AllocError>
        ensures holds { IfOk result (λ r. IsTrue r
            ↔ Passes (compiled_of cx.now.default_filter.now)
            (G.member groups.now (test_of query.now)) (test_of query.now) (compiled_of self.now)) }
        ensures answers { has_leaf has_pattern (compiled_of self.now) ≡ false
            → has_leaf has_pattern (compiled_of cx.now.default_filter.now) ≡ false
            → (has_leaf is_group (compiled_of self.now) ≡ true → (m : NameTest)
            → G.ready groups.now (test_of query.now) m) → IsOk result }
    {
        let default = self.default_value(alloc, query, cx.default_filter, groups)?;
        self.value_of(alloc, query, groups, default)
    }

    /// Whether the default filter holds of the test, if it is named.
    fn default_value<G: GroupLookup>(
        &self,
        alloc: Global,
        query: &TestQuery<'_>,
        default_filter: &CompiledExpr,
        groups: &G,
    ) -> Result<bool, AllocError>
        ensures holds { IfOk result (λ r. has_leaf is_default (compiled_of self.now) ≡ true
            → (IsTrue r ↔ Holds (LeafHolds (G.member groups.now (test_of query.now)) (IsTrue false)
            (test_of query.now)) (compiled_of default_filter.now))) }
        ensures answers { has_leaf has_pattern (compiled_of default_filter.now) ≡ false
            → has_leaf is_group (compiled_of default_filter.now) ≡ false → IsOk result }
    {
        if !self.has_default() {
            return Ok(false);
        }
        let value = default_filter.value_of(alloc, query, groups, false)?;
        Ok(value)
    }

    /// Whether the filter holds of the test, where the default filter does or does not.
    fn value_of<G: GroupLookup>(
        &self,
        alloc: Global,
        query: &TestQuery<'_>,
        groups: &G,
        default: bool,
    ) -> Result<bool, AllocError>
        ensures holds { IfOk result (λ r. IsTrue r
            ↔ Holds (LeafHolds (G.member groups.now (test_of query.now)) (IsTrue default)
            (test_of query.now)) (compiled_of self.now)) }
        ensures answers { has_leaf has_pattern (compiled_of self.now) ≡ false
            → (has_leaf is_group (compiled_of self.now) ≡ true → (m : NameTest)
            → G.ready groups.now (test_of query.now) m) → IsOk result }
    {
        let mut negated = false;
        let mut rest = self;
        loop {
            match rest {
                CompiledExpr::Not(x) => {
                    negated = !negated;
                    rest = x;
                }
                CompiledExpr::Union(x, y) => {
                    if y.value_of(alloc, query, groups, default)? {
                        return Ok(!negated);
                    }
                    rest = x;
                }
                CompiledExpr::Intersection(x, y) => {
                    if !y.value_of(alloc, query, groups, default)? {
                        return Ok(negated);
                    }
                    rest = x;
                }
                CompiledExpr::Set(leaf) => {
                    let value = leaf_holds(alloc, leaf, query, groups, default)?;
                    return Ok(value != negated);
                }
            }
        }
    }
}

fn leaf_holds<G: GroupLookup>(
    alloc: Global,
    leaf: &FiltersetLeaf,
    query: &TestQuery<'_>,
    groups: &G,
    default: bool,
) -> Result<bool, AllocError>
    ensures holds { IfOk result (λ r. IsTrue r
        ↔ LeafHolds (G.member groups.now (test_of query.now)) (IsTrue default) (test_of query.now)
        (leaf_of leaf.now)) }
    ensures answers { has_pattern (leaf_of leaf.now) ≡ false
        → (is_group (leaf_of leaf.now) ≡ true → (m : NameTest)
        → G.ready groups.now (test_of query.now) m) → IsOk result }
{
    let binary = query.binary_query;
    match leaf {
        FiltersetLeaf::Packages(ids) => Ok(ids.contains(binary.package_id)),
        FiltersetLeaf::Kind(matcher, _) => suits(alloc, matcher, binary.kind.as_str()),
        FiltersetLeaf::Platform(platform, _) => Ok(binary.platform == *platform),
        FiltersetLeaf::Binary(matcher, _) => suits(alloc, matcher, binary.binary_name),
        FiltersetLeaf::BinaryId(matcher, _) => suits(alloc, matcher, binary.binary_id.as_str()),
        FiltersetLeaf::Test(matcher, _) => suits(alloc, matcher, query.test_name.as_str()),
        FiltersetLeaf::Group(matcher, _) => groups.is_member_test(query, matcher),
        FiltersetLeaf::Default => Ok(default),
        FiltersetLeaf::All => Ok(true),
        FiltersetLeaf::None => Ok(false),
    }
}
