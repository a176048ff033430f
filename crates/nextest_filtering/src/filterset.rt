//! Filter texts, compiled.

ghost use Rattle.std.specs.Prelude.{◌≡◌, ◌↔◌, ◌<◌, Bool, Some, true, false, IfErr, IfOk, IsOk, IsTrue, codes, string_bytes, vec_len};
ghost use Rattle.std.specs.Str.Iter.{HasSubslice};
ghost use Rattle.nextest_filter_tokens.specs.declared.filterset_kind.FiltersetKind.TheVariants.{Test};
ghost use Rattle.nextest_filter_syntax.specs.Grammar.{ReadsWhole};
ghost use Rattle.nextest_filter_syntax.specs.FiltersAsWritten.{IsExprAsWritten};
ghost use Rattle.nextest_filter_syntax.specs.Trees.{patterns_of, tree_of};
ghost use Rattle.nextest_filter_evaluation.specs.Groups.{AreKnown};
ghost use Rattle.nextest_filter_evaluation.specs.NameTests.{NameTest};
ghost use Rattle.nextest_binaries.specs.Queries.{binary_of, test_of};
ghost use Rattle.nextest_filter_evaluation.specs.Compiled.{compiled_of, has_pattern, is_group};
ghost use Rattle.nextest_filter_evaluation.specs.Formulas.{AllAnswersGive, has_leaf};
ghost use Rattle.nextest_filter_evaluation.specs.Meaning.{MayBe, Passes};
ghost use Rattle.nextest_filtering.specs.Acceptance.{IsAccepted};
ghost use Rattle.nextest_filtering.specs.Compiling.{IsCompiled};
ghost use Rattle.nextest_filtering.specs.Filters.{filter_of};
ghost use Rattle.nextest_filtering.specs.Refusals.{IsRefusal};
ghost use Rattle.nextest_filtering.specs.declared.refusals.FiltersetError.TheVariants as error;

use crate::bans::bans_of;
use crate::compiling::compiled_with_faults;
use crate::parse_context::ParseContext;
use crate::refusals::{FiltersetError, FiltersetParseErrors};
use nextest_filter_evaluation::{
    BinaryQuery, CompiledExpr, EvalContext, GroupLookup, KnownGroups, TestQuery,
};
use nextest_filter_syntax::{FiltersetKind, ParseSingleError, ParsedExpr, parse_with_faults};
use std::alloc::{AllocError, Global};

/// A filter text that was accepted, as it was read and as it was compiled.
#[derive(Debug, Drop, PartialEq, Eq)]
pub struct Filterset {
    /// The text.
    pub input: String,
    /// What it reads as.
    pub parsed: ParsedExpr,
    /// That, with names of packages looked up.
    pub compiled: CompiledExpr,
}

impl Filterset {
    /// Compiles a filter text. Groups have to be known where a filter of tests is compiled. The faults
    /// of a refused text are those of its reading, else its banned predicates, else its leaves that
    /// match nothing.
    pub fn parse(
        alloc: Global,
        input: String,
        cx: &ParseContext<'_>,
        kind: FiltersetKind,
        known_groups: &KnownGroups,
    ) -> Result<Filterset, FiltersetError>
        requires known { kind ≡ Test → AreKnown known_groups.now }
        ensures input { IfOk result (λ f. string_bytes f.input ≡ string_bytes input) }
        ensures reads { IfOk result (λ f. ReadsWhole (string_bytes input) (tree_of f.parsed)) }
        ensures as_written { IfOk result (λ f. IsExprAsWritten f.parsed) }
        ensures accepted { IfOk result (λ f. IsAccepted cx.now known_groups.now kind
            (filter_of f.parsed)) }
        ensures compiled { IfOk result (λ f. IsCompiled cx.now (filter_of f.parsed)
            (compiled_of f.compiled)) }
        ensures refused { IfErr result (IsRefusal cx.now known_groups.now kind
            (string_bytes input)) }
    {
        let (tree, faults) = parse_with_faults(alloc, input.as_str())?;
        if !faults.is_empty() {
            return Err(refused(input, faults));
        }
        let parsed = match tree {
            Some(parsed) => parsed,
            None => return Err(refused(input, faults)),
        };
        let bans = bans_of(alloc, &parsed, kind)?;
        if !bans.is_empty() {
            return Err(refused(input, bans));
        }
        let (compiled, unmatched) = compiled_with_faults(alloc, &parsed, cx, known_groups)?;
        if !unmatched.is_empty() {
            return Err(refused(input, unmatched));
        }
        Ok(Filterset {
            input,
            parsed,
            compiled,
        })
    }

    /// Whether a text may ask for dependencies, which have to be found before it is compiled.
    pub fn needs_deps(text: &str) -> bool
        ensures needs { IsTrue result ↔ HasSubslice text.now (codes "deps") }
    {
        nextest_filter_syntax::needs_deps(text)
    }

    /// An equal filter in memory of its own, whose leaves match the same names.
    pub fn copy(&self, alloc: Global) -> Result<Filterset, AllocError>
        ensures input { IfOk result (λ c. string_bytes c.input ≡ string_bytes self.now.input) }
        ensures parsed { IfOk result (λ c. tree_of c.parsed ≡ tree_of self.now.parsed) }
        ensures patterns { IfOk result (λ c. patterns_of c.parsed ≡ patterns_of self.now.parsed) }
        ensures compiled { IfOk result (λ c. compiled_of c.compiled
            ≡ compiled_of self.now.compiled) }
    {
        let input = String::from_str(alloc, self.input.as_str())?;
        let parsed = self.parsed.copy(alloc)?;
        match self.compiled.copy(alloc) {
            Ok(compiled) => Ok(Filterset {
                input,
                parsed,
                compiled,
            }),
            Err(refused) => {
                drop((input, parsed));
                Err(refused)
            }
        }
    }

    /// What the filter says of all tests of the binary; see `CompiledExpr::matches_binary`.
    pub fn matches_binary(
        &self,
        alloc: Global,
        query: &BinaryQuery<'_>,
        cx: &EvalContext<'_>,
    ) -> Result<Option<bool>, AllocError>
        ensures exact { IfOk result (λ r. (v : Bool) → (r ≡ Some v)
            ↔ AllAnswersGive (MayBe (compiled_of cx.now.default_filter.now) (binary_of query.now))
            (compiled_of self.now.compiled) v) }
        ensures answers { has_leaf has_pattern (compiled_of self.now.compiled) ≡ false
            → has_leaf has_pattern (compiled_of cx.now.default_filter.now) ≡ false → IsOk result }
    {
        self.compiled.matches_binary(alloc, query, cx)
    }

    /// Whether the filter, which may not name groups, holds of the test.
    pub fn matches_test(
        &self,
        alloc: Global,
        query: &TestQuery<'_>,
        cx: &EvalContext<'_>,
    ) -> Result<bool, AllocError>
        requires groups { has_leaf is_group (compiled_of self.now.compiled) ≡ false }
        ensures holds { IfOk result (λ r. IsTrue r
            ↔ Passes (compiled_of cx.now.default_filter.now) (λ _. ⊥) (test_of query.now)
            (compiled_of self.now.compiled)) }
        ensures answers { has_leaf has_pattern (compiled_of self.now.compiled) ≡ false
            → has_leaf has_pattern (compiled_of cx.now.default_filter.now) ≡ false → IsOk result }
    {
        self.compiled.matches_test(alloc, query, cx)
    }

    /// Whether the filter holds of the test, whose groups the lookup knows.
    pub fn matches_test_with_groups(
        &self,
        alloc: Global,
        query: &TestQuery<'_>,
        cx: &EvalContext<'_>,
        groups: &dyn GroupLookup,
    ) -> Result<bool, AllocError>
        ensures holds { IfOk result (λ r. IsTrue r
            ↔ Passes (compiled_of cx.now.default_filter.now) (member groups.now (test_of query.now))
            (test_of query.now) (compiled_of self.now.compiled)) }
        ensures answers { has_leaf has_pattern (compiled_of self.now.compiled) ≡ false
            → has_leaf has_pattern (compiled_of cx.now.default_filter.now) ≡ false
            → (has_leaf is_group (compiled_of self.now.compiled) ≡ true → (m : NameTest)
            → ready groups.now (test_of query.now) m) → IsOk result }
    {
        self.compiled
            .matches_test_with_groups(alloc, query, cx, groups)
    }
}

fn refused(input: String, errors: Vec<ParseSingleError>) -> FiltersetError
    ensures { result ≡ error.Parse (record { input = input; errors = errors }) }
{
    FiltersetError::Parse(FiltersetParseErrors { input, errors })
}
