//! What filters say of all tests of a binary.

ghost use Rattle.std.specs.Prelude.{◌≡◌, ◌↔◌, Bool, Some, true, false, IfOk, IsOk};
ghost use Rattle.nextest_binaries.specs.Queries.{binary_of};
ghost use Rattle.nextest_filter_evaluation.specs.Formulas.{AllAnswersGive, SomeAnswersGive, has_leaf};
ghost use Rattle.nextest_filter_evaluation.specs.Compiled.{compiled_of, has_pattern, is_default, leaf_of};
ghost use Rattle.nextest_filter_evaluation.specs.Kleene.{Tells, may_be};
ghost use Rattle.nextest_filter_evaluation.specs.Meaning.{DefaultGives, LeafGives, MayBe};

use crate::compiled_expr::CompiledExpr;
use crate::eval_context::EvalContext;
use crate::filterset_leaf::FiltersetLeaf;
use crate::known_by_part::KnownByPart;
use crate::name_tests::suits;
use nextest_binaries::BinaryQuery;
use std::alloc::{AllocError, Global};

impl CompiledExpr {
    /// What the filter says of all tests of the binary, whatever they are called and to whatever groups
    /// they belong; none where it may say either. Memory is wanted where the filter or the default
    /// filter has a pattern.
    pub fn matches_binary(
        &self,
        alloc: Global,
        query: &BinaryQuery<'_>,
        cx: &EvalContext<'_>,
    ) -> Result<Option<bool>, AllocError>
        ensures exact { IfOk result (λ r. (v : Bool) → (r ≡ Some v)
            ↔ AllAnswersGive (MayBe (compiled_of cx.now.default_filter.now) (binary_of query.now))
            (compiled_of self.now) v) }
        ensures some { IfOk result (λ r. Tells r
            (SomeAnswersGive (MayBe (compiled_of cx.now.default_filter.now) (binary_of query.now))
            (compiled_of self.now))) }
        ensures answers { has_leaf has_pattern (compiled_of self.now) ≡ false
            → has_leaf has_pattern (compiled_of cx.now.default_filter.now) ≡ false → IsOk result }
    {
        let default = self.known_default(alloc, query, cx.default_filter)?;
        self.known_of(alloc, query, default)
    }

    /// What is known of the default filter, if it is named.
    fn known_default(
        &self,
        alloc: Global,
        query: &BinaryQuery<'_>,
        default_filter: &CompiledExpr,
    ) -> Result<Option<bool>, AllocError>
        ensures known { IfOk result (λ r. has_leaf is_default (compiled_of self.now) ≡ true
            → Tells r (DefaultGives (compiled_of default_filter.now) (binary_of query.now))) }
        ensures answers { has_leaf has_pattern (compiled_of default_filter.now) ≡ false
            → IsOk result }
    {
        if !self.has_default() {
            return Ok(None);
        }
        let known = default_filter.known_of(alloc, query, None)?;
        Ok(known)
    }

    /// What is known of the filter, where this is known of the default filter.
    fn known_of(
        &self,
        alloc: Global,
        query: &BinaryQuery<'_>,
        default: Option<bool>,
    ) -> Result<Option<bool>, AllocError>
        ensures known { IfOk result (λ r. Tells r
            (SomeAnswersGive (LeafGives (may_be default) (binary_of query.now))
            (compiled_of self.now))) }
        ensures answers { has_leaf has_pattern (compiled_of self.now) ≡ false → IsOk result }
    {
        let mut whole = KnownByPart::whole();
        let mut rest = self;
        loop {
            match rest {
                CompiledExpr::Not(x) => {
                    whole = whole.through_not();
                    rest = x;
                }
                CompiledExpr::Union(x, y) => {
                    let y = y.known_of(alloc, query, default)?;
                    whole = whole.through_either(y);
                    rest = x;
                }
                CompiledExpr::Intersection(x, y) => {
                    let y = y.known_of(alloc, query, default)?;
                    whole = whole.through_both(y);
                    rest = x;
                }
                CompiledExpr::Set(leaf) => {
                    let known = known_of_leaf(alloc, leaf, query, default)?;
                    return Ok(whole.at(known));
                }
            }
        }
    }
}

fn known_of_leaf(
    alloc: Global,
    leaf: &FiltersetLeaf,
    query: &BinaryQuery<'_>,
    default: Option<bool>,
) -> Result<Option<bool>, AllocError>
    ensures known { IfOk result (λ r. Tells r
        (LeafGives (may_be default) (binary_of query.now) (leaf_of leaf.now))) }
    ensures answers { has_pattern (leaf_of leaf.now) ≡ false → IsOk result }
{
    match leaf {
        FiltersetLeaf::Packages(ids) => Ok(Some(ids.contains(query.package_id))),
        FiltersetLeaf::Kind(matcher, _) => Ok(Some(suits(alloc, matcher, query.kind.as_str())?)),
        FiltersetLeaf::Platform(platform, _) => Ok(Some(query.platform == *platform)),
        FiltersetLeaf::Binary(matcher, _) => Ok(Some(suits(alloc, matcher, query.binary_name)?)),
        FiltersetLeaf::BinaryId(matcher, _) => {
            Ok(Some(suits(alloc, matcher, query.binary_id.as_str())?))
        }
        FiltersetLeaf::Test(..) | FiltersetLeaf::Group(..) => Ok(None),
        FiltersetLeaf::Default => Ok(default),
        FiltersetLeaf::All => Ok(Some(true)),
        FiltersetLeaf::None => Ok(Some(false)),
    }
}
