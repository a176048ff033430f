//! Whole filters read from their text.

ghost use Rattle.std.specs.Prelude.{◌≡◌, ◌≤◌, ◌<◌, ◌↔◌, Some, IfOk, IfSome, IfNone, OnOk, length, vec_len};
ghost use Rattle.nextest_filter_matchers.specs.declared.source_span.SourceSpan as source;
ghost use Rattle.nextest_filter_tokens.specs.Bytes.{skip};
ghost use Rattle.nextest_filter_tokens.specs.FaultLists.{AreOver, AreWithin, pattern_faults, syntax_faults};
ghost use Rattle.nextest_filter_tokens.specs.ReadingSteps.{AreOf, Grows, IsClean, KeepsPatterns};
ghost use Rattle.nextest_filter_syntax.specs.FiltersAsWritten.{IsExprAsWritten};
ghost use Rattle.nextest_filter_syntax.specs.Trees.{Tree, tree_of};
ghost use Rattle.nextest_filter_syntax.specs.Grammar.{ReadsWhole};
ghost use Rattle.nextest_filter_syntax.specs.Reading.{part_of};
ghost use Rattle.nextest_filter_syntax.specs.Parsing.{AreOfTree, ReadsSome};

use crate::parsed_expr::ParsedExpr;
use crate::reading::{rest_of, tree_from};
use nextest_filter_matchers::SourceSpan;
use nextest_filter_tokens::{FaultList, ParseSingleError, skip_blanks};
use std::alloc::{AllocError, Global};
use thiserror::Error;

// It prints `invalid filter` and `out of memory`: no text was given for it.
/// Why no tree was made of a text.
#[derive(Debug, Drop, PartialEq, Eq, Error)]
pub enum ParseExprError {
    /// The faults of the text.
    #[error("invalid filter")]
    Faults(Vec<ParseSingleError>),
    #[error("out of memory")]
    Memory,
}

/// Reports what is left of a text after its filter.
fn expect_end(text: &str, at: usize, faults: &mut FaultList) -> Result<(), AllocError>
    requires at { at ≤ length text.now }
    requires faults { AreOf text.now faults.old }
    ensures grows { OnOk result (Grows text.now faults.old faults.new) }
    ensures keeps { OnOk result (KeepsPatterns faults.old faults.new) }
    ensures read { OnOk result (IsClean faults.new → skip text.now at ≡ length text.now) }
    ensures only { OnOk result (IsClean faults.old → skip text.now at ≡ length text.now
        → IsClean faults.new) }
{
    let end = skip_blanks(text, at);
    if end == text.len() {
        return Ok(());
    }
    faults.report(ParseSingleError::ExpectedEndOfExpression(rest_of(text, at)))?;
    Ok(())
}

/// The tree of a filter, `None` where a part of it is spoiled, and the faults of its text.
pub fn parse_with_faults(
    alloc: Global,
    text: &str,
) -> Result<(Option<ParsedExpr>, Vec<ParseSingleError>), AllocError>
    ensures exact { IfOk result (λ r. vec_len r.1 ≡ 0
        ↔ ((t : Tree source.SourceSpan) × ReadsWhole text.now t × (part_of r.0 ≡ Some t))) }
    ensures reads { IfOk result (λ r. syntax_faults r.1.items ≡ 0 ↔ ReadsSome text.now) }
    ensures spoiled { IfOk result (λ r. IfNone r.0 (0 < vec_len r.1)) }
    ensures as_written { IfOk result (λ r. IfSome r.0 IsExprAsWritten) }
    ensures built { IfOk result (λ r. IfSome r.0 (λ _. pattern_faults r.1.items ≡ 0)) }
    ensures tree { IfOk result (λ r. (t : Tree source.SourceSpan) → ReadsWhole text.now t
        → IfSome r.0 (λ x. tree_of x ≡ t)) }
    ensures within { IfOk result (λ r. AreWithin (length text.now) r.1.items) }
    ensures over { IfOk result (λ r. AreOver text.now r.1.items) }
    ensures of_tree { IfOk result (λ r. AreOfTree text.now r.1.items) }
{
    let mut faults = FaultList::new(alloc);
    let (tree, end) = tree_from(alloc, text, 256, 2, 0, &mut faults)?;
    match expect_end(text, end, &mut faults) {
        Ok(()) => Ok((tree, faults.list)),
        Err(refused) => {
            drop(tree);
            Err(refused)
        }
    }
}

impl ParsedExpr<SourceSpan> {
    ghost use Rattle.std.specs.Prelude.{◌≡◌, IfOk, IfErr};
    ghost use Rattle.nextest_filter_matchers.specs.declared.source_span.SourceSpan as source;
    ghost use Rattle.nextest_filter_syntax.specs.Trees.{Tree, tree_of};
    ghost use Rattle.nextest_filter_syntax.specs.Grammar.{ReadsWhole};
    ghost use Rattle.nextest_filter_syntax.specs.FiltersAsWritten.{IsExprAsWritten};
    ghost use Rattle.nextest_filter_syntax.specs.Parsing.{AreFaultsOf};

    /// The tree of a filter, even where faults of its text were found.
    pub fn parse(alloc: Global, text: &str) -> Result<ParsedExpr, ParseExprError>
        ensures tree { IfOk result (λ x. (t : Tree source.SourceSpan) → ReadsWhole text.now t
            → tree_of x ≡ t) }
        ensures as_written { IfOk result IsExprAsWritten }
        ensures faults { IfErr result (AreFaultsOf text.now) }
    {
        match parse_with_faults(alloc, text) {
            Ok(answer) => {
                let (tree, faults) = answer;
                match tree {
                    Some(tree) => Ok(tree),
                    None => Err(ParseExprError::Faults(faults)),
                }
            }
            Err(_) => Err(ParseExprError::Memory),
        }
    }
}
