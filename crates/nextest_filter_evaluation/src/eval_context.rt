//! What filters are asked with: the default filter and groups.

ghost use Rattle.std.specs.Prelude.{◌≡◌, false};
ghost use Rattle.nextest_filter_evaluation.specs.Formulas.{has_leaf};
ghost use Rattle.nextest_filter_evaluation.specs.Compiled.{compiled_of, is_default, is_group};

use crate::compiled_expr::CompiledExpr;

/// What filters are asked with: the filter that stands for `default()`, which names neither itself nor
/// groups.
#[derive(Clone, Copy, Debug)]
pub struct EvalContext<'a> {
    pub default_filter: &'a CompiledExpr,
    ghost no_default: { has_leaf is_default (compiled_of default_filter.now) ≡ false },
    ghost no_group: { has_leaf is_group (compiled_of default_filter.now) ≡ false },
}

impl<'a> EvalContext<'a> {
    ghost use Rattle.std.specs.Prelude.{◌⊎◌, true, IfNone, IfSome};

    /// The context in which this filter stands for `default()`; none for one that names itself or
    /// groups.
    pub fn new(default_filter: &'a CompiledExpr) -> Option<EvalContext<'a>>
        ensures made { IfSome result (λ cx. cx.default_filter.now ≡ default_filter.entry.now) }
        ensures none { IfNone result ((has_leaf is_default (compiled_of default_filter.entry.now)
            ≡ true) ⊎ (has_leaf is_group (compiled_of default_filter.entry.now) ≡ true)) }
    {
        if default_filter.has_default() {
            return None;
        }
        if default_filter.has_group_matchers() {
            return None;
        }
        Some(EvalContext { default_filter })
    }
}
