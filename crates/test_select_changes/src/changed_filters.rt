//! The filter for the tests of what depends on changed packages.

ghost use Rattle.std.specs.Prelude.{◌≡◌, IfOk, string_bytes};
ghost use Rattle.list_facts.specs.Texts.{texts};
ghost use Rattle.nextest_filter_laws.specs.Laws.{bare};
ghost use Rattle.nextest_filter_syntax.specs.Trees.{tree_of, union_of};
ghost use Rattle.nextest_filter_tokens.specs.declared.operator_signs.OrOperator.TheVariants.{Pipe};
ghost use Rattle.test_select_changes.specs.ChangedFilters.{changed_tree, dependents_of, dependents_of_all};

use crate::changed::Changed;
use nextest_filter_syntax::{NameMatcher, OrOperator, ParsedExpr, ParsedLeaf, SourceSpan};
use std::alloc::{AllocError, Global};

/// The filter that holds of the tests of changed packages, and of all that depends on them. Packages are
/// named in the order in which they come. It was read of no text, so its spans are empty.
pub fn changed_filter(alloc: Global, changed: Changed) -> Result<ParsedExpr, AllocError>
    ensures tree { IfOk result (λ filter. bare (tree_of filter) ≡ changed_tree changed) }
{
    match changed {
        Changed::All => Ok(ParsedExpr::Set(ParsedLeaf::All)),
        Changed::Packages(names) => dependents_of_all(alloc, names),
    }
}

fn dependents_of_all(alloc: Global, names: Vec<String>) -> Result<ParsedExpr, AllocError>
    ensures { IfOk result (λ filter. bare (tree_of filter)
        ≡ dependents_of_all (texts names.items)) }
{
    let mut names = names.into_iter();
    let Some(first) = names.next() else {
        return Ok(ParsedExpr::Set(ParsedLeaf::None));
    };
    let mut filter = dependents_of(first);
    for name in names {
        filter = either(alloc, filter, dependents_of(name))?;
    }
    Ok(filter)
}

/// Two filters, joined by `|`.
fn either(alloc: Global, left: ParsedExpr, right: ParsedExpr) -> Result<ParsedExpr, AllocError>
    ensures { IfOk result (λ filter. tree_of filter
        ≡ union_of Pipe (tree_of left) (tree_of right)) }
{
    let left = Box::new(alloc, left)?;
    let right = Box::new(alloc, right)?;
    Ok(ParsedExpr::Union(OrOperator::Pipe, left, right))
}

/// `rdeps(=NAME)`.
fn dependents_of(name: String) -> ParsedExpr
    ensures { bare (tree_of result) ≡ dependents_of (string_bytes name) }
{
    let matcher = NameMatcher::Equal {
        value: name,
        implicit: false,
    };
    ParsedExpr::Set(ParsedLeaf::Rdeps(matcher, SourceSpan { offset: 0, len: 0 }))
}
