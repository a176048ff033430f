//! Rules, a line for each.

ghost use Rattle.std.specs.Prelude.{◌≡◌, ◌++◌, IfOk, OnOk, map, string_bytes};
ghost use Rattle.feature_account_making.specs.AccountText.{LeavesWhereMemoryFails};
ghost use Rattle.list_facts.specs.Writers.{Writes};
ghost use Rattle.feature_account_making.specs.RuleLines.{entry_line, entry_lines, rule_line, rule_lines};
ghost use Rattle.feature_account_making.specs.SourceViews.{sourced_view};

use crate::printed::PrintedRule;
use crate::sourced_rule::SourcedRule;
use crate::write_account_error::WriteAccountError;
use list_facts::write_bytes;
use std::alloc::{AllocError, Global};
use std::io::Write;

/// Writes a line for each rule: `8: app/full -> app/dep:util`, numbered from 0.
///
/// All memory is taken before the first byte is written. After a fault of the writer what was written
/// is a beginning of the lines.
pub fn write_rules<W: Write>(
    alloc: Global,
    rules: &[SourcedRule<'_>],
    writer: &mut W,
) -> Result<(), WriteAccountError>
    ensures writes { Writes (W.contents writer.old) (W.contents writer.new) result
        (rule_lines 0 (map sourced_view rules.now)) }
    ensures memory { LeavesWhereMemoryFails (W.contents writer.old) result (W.contents writer.new) }
{
    let text = match rule_lines(alloc, rules) {
        Ok(text) => text,
        Err(error) => return Err(WriteAccountError::from(error)),
    };
    write_bytes(writer, text.as_bytes())?;
    Ok(())
}

/// Writes a line for each entry of an account or of an explanation: its rule, as `write_rules` has it,
/// and in brackets what the rule comes from. A number that no rule has gets no line.
///
/// All memory is taken before the first byte is written. After a fault of the writer what was written
/// is a beginning of the lines.
pub fn write_entries<W: Write>(
    alloc: Global,
    rules: &[SourcedRule<'_>],
    entries: &[usize],
    writer: &mut W,
) -> Result<(), WriteAccountError>
    ensures writes { Writes (W.contents writer.old) (W.contents writer.new) result
        (entry_lines (map sourced_view rules.now) entries.now) }
    ensures memory { LeavesWhereMemoryFails (W.contents writer.old) result (W.contents writer.new) }
{
    let text = match entry_lines(alloc, rules, entries) {
        Ok(text) => text,
        Err(error) => return Err(WriteAccountError::from(error)),
    };
    write_bytes(writer, text.as_bytes())?;
    Ok(())
}

fn rule_lines(alloc: Global, rules: &[SourcedRule<'_>]) -> Result<String, AllocError>
    ensures { IfOk result (λ text. string_bytes text ≡ rule_lines 0 (map sourced_view rules.now)) }
{
    let mut text = String::new(alloc);
    for (number, rule) in rules.iter().enumerate() {
        push_rule(alloc, number, rule, &mut text)?;
    }
    Ok(text)
}

fn push_rule(
    alloc: Global,
    number: usize,
    rule: &SourcedRule<'_>,
    text: &mut String,
) -> Result<(), AllocError>
    ensures { OnOk result (string_bytes text.new
        ≡ string_bytes text.old ++ rule_line number (sourced_view rule.now)) }
{
    let rule = PrintedRule {
        number,
        rule: &rule.rule,
    };
    let line = format!(in alloc; "{rule}\n")?;
    text.push_str(line.as_str())?;
    Ok(())
}

fn entry_lines(
    alloc: Global,
    rules: &[SourcedRule<'_>],
    entries: &[usize],
) -> Result<String, AllocError>
    ensures { IfOk result (λ text. string_bytes text
        ≡ entry_lines (map sourced_view rules.now) entries.now) }
{
    let mut text = String::new(alloc);
    for number in entries {
        push_entry(alloc, rules, *number, &mut text)?;
    }
    Ok(text)
}

fn push_entry(
    alloc: Global,
    rules: &[SourcedRule<'_>],
    number: usize,
    text: &mut String,
) -> Result<(), AllocError>
    ensures { OnOk result (string_bytes text.new
        ≡ string_bytes text.old ++ entry_line (map sourced_view rules.now) number) }
{
    let Some(rule) = rules.get(number) else {
        return Ok(());
    };
    let source = rule.source;
    let rule = PrintedRule {
        number,
        rule: &rule.rule,
    };
    let line = format!(in alloc; "{rule} ({source})\n")?;
    text.push_str(line.as_str())?;
    Ok(())
}
