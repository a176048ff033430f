//! Whether a platform spec, a triple or an expression, holds.

ghost use Rattle.std.specs.Prelude.{◌≡◌, ◌≤◌, ◌<◌, ◌↔◌, length, bytes_eq, false, IfOk, IfErr, IsOkAnd, IsTrue};
ghost use Rattle.cargo_files.specs.Expressions.{Cfg, says};
ghost use Rattle.cargo_files.specs.Specs as spec;
ghost use Rattle.cargo_files.specs.Specs.{IsCfg, IsSpec, IsTriple, Spec, SpecHolds};

use crate::bytes::{Run, run_end};
use crate::head::is_same;
use crate::reading::{closed, expression};
use crate::setting::CfgSetting;
use crate::spec_fault::{Expected, SpecFault};

/// How deep expressions may be nested.
const ROOM: usize = 128;

/// Whether the platform with this triple and these settings is one that the spec names.
pub fn spec_holds(text: &str, triple: &str, settings: &[CfgSetting]) -> Result<bool, SpecFault>
    ensures read { IfOk result (λ _. (s : Spec) × IsSpec text.now s) }
    ensures answers { (s : Spec) → IsSpec text.now s
        → IsOkAnd result (λ b. IsTrue b ↔ SpecHolds triple.now settings.now s) }
    ensures within { IfErr result (λ fault. fault.at ≤ length text.now) }
{
    let bytes = text.as_bytes();
    if is_expression(bytes) {
        expression_holds(bytes, settings)
    } else {
        triple_holds(bytes, triple.as_bytes())
    }
}

/// Whether the text begins as an expression.
fn is_expression(text: &[u8]) -> bool
    ensures value { result ≡ spec.is_expression text.now }
{
    text.len() >= 4 && is_same(&text[..4], b"cfg(")
}

/// Whether the whole text, an expression, holds under the settings.
fn expression_holds(text: &[u8], settings: &[CfgSetting]) -> Result<bool, SpecFault>
    requires { 4 ≤ length text.now }
    ensures read { IfOk result (λ _. (x : Cfg) × IsCfg text.now x) }
    ensures only { (x : Cfg) → IsCfg text.now x → IsOkAnd result (λ b. b ≡ says settings.now x) }
    ensures within { IfErr result (λ fault. fault.at ≤ length text.now) }
{
    let (value, end) = expression(text, settings, ROOM, 4)?;
    let at = closed(text, end)?;
    if at == text.len() {
        Ok(value)
    } else {
        let wanted = Expected::End;
        Err(SpecFault { at, wanted })
    }
}

/// Whether the whole text is the triple.
fn triple_holds(text: &[u8], triple: &[u8]) -> Result<bool, SpecFault>
    ensures read { IfOk result (λ _. IsTriple text.now) }
    ensures only { IsTriple text.now → IsOkAnd result (λ b. b ≡ bytes_eq text.now triple.now) }
    ensures within { IfErr result (λ fault. fault.at ≤ length text.now) }
{
    let at = run_end(Run::Triple, text, 0);
    if at == text.len() && at > 0 {
        Ok(is_same(text, triple))
    } else {
        let wanted = Expected::Triple;
        Err(SpecFault { at, wanted })
    }
}
