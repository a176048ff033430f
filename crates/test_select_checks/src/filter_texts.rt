//! Filter texts, compiled.

ghost use Rattle.std.specs.Prelude.{◌≡◌, IfErr, IfOk};
ghost use Rattle.nextest_filter_tokens.specs.declared.filterset_kind.FiltersetKind.TheVariants.{Test};
ghost use Rattle.nextest_filter_evaluation.specs.Groups.{AreKnown};
ghost use Rattle.nextest_filter_evaluation.specs.Compiled.{compiled_of};
ghost use Rattle.nextest_filtering.specs.Refusals.{IsRefusal};
ghost use Rattle.test_select_checks.specs.FilterTexts.{IsCompiledText};

use nextest_filtering::errors::FiltersetError;
use nextest_filtering::{CompiledExpr, Filterset, FiltersetKind, KnownGroups, ParseContext};
use std::alloc::Global;

/// The filter of a text, compiled, or the faults of the text.
pub fn compiled_text(
    alloc: Global,
    text: &str,
    cx: &ParseContext<'_>,
    kind: FiltersetKind,
    groups: &KnownGroups,
) -> Result<CompiledExpr, FiltersetError>
    requires known { kind ≡ Test → AreKnown groups.now }
    ensures compiled { IfOk result (λ c. IsCompiledText cx.now groups.now kind text.now
        (compiled_of c)) }
    ensures refused { IfErr result (IsRefusal cx.now groups.now kind text.now) }
{
    let input = String::from_str(alloc, text)?;
    match Filterset::parse(alloc, input, cx, kind, groups) {
        Ok(
            Filterset {
                input,
                parsed,
                compiled,
            },
        ) => {
            drop((input, parsed));
            Ok(compiled)
        }
        Err(refused) => Err(refused),
    }
}
