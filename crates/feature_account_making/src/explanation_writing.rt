//! The explanation as text.

ghost use Rattle.std.specs.Prelude.{◌≡◌, ◌++◌, OnOk, IfOk, string_bytes};
ghost use Rattle.workspace_record.specs.LabelView.{label_view};
ghost use Rattle.list_facts.specs.Writers.{Writes};
ghost use Rattle.feature_account_making.specs.AccountText.{LeavesWhereMemoryFails};
ghost use Rattle.feature_account_making.specs.ExplanationText.{explanation_text, goal_text, label_text, json_text};

use crate::account_writing::push_numbers;
use crate::write_account_error::WriteAccountError;
use list_facts::write_bytes;
use serde_json::Value;
use std::alloc::{AllocError, Global};
use std::io::Write;
use workspace_record::{Feature, Label};

/// Writes the explanation of the feature as one line of JSON, and a line feed:
/// `{"goal":{"package":"util","feature":"simd"},"rules":[2,3]}` with its texts and numbers. The texts
/// are as `serde_json` writes them, and the feature as a choice names it.
///
/// All memory is taken before the first byte is written. After a fault of the writer what was written
/// is a beginning of the line.
pub fn write_explanation<W: Write>(
    alloc: Global,
    feature: &Feature,
    explanation: &[usize],
    writer: &mut W,
) -> Result<(), WriteAccountError>
    ensures writes { Writes (W.contents writer.old) (W.contents writer.new) result
        (explanation_text feature.now explanation.now) }
    ensures memory { LeavesWhereMemoryFails (W.contents writer.old) result (W.contents writer.new) }
{
    let text = match explanation_text(alloc, feature, explanation) {
        Ok(text) => text,
        Err(error) => return Err(WriteAccountError::from(error)),
    };
    write_bytes(writer, text.as_bytes())?;
    Ok(())
}

fn explanation_text(alloc: Global, goal: &Feature, entries: &[usize]) -> Result<String, AllocError>
    ensures { IfOk result (λ text. string_bytes text ≡ explanation_text goal.now entries.now) }
{
    let mut text = String::from_str(alloc, "{\"goal\":")?;
    push_goal(alloc, &mut text, goal)?;
    text.push_str(",\"rules\":[")?;
    push_numbers(alloc, &mut text, entries)?;
    text.push_str("]}\n")?;
    Ok(text)
}

fn push_goal(alloc: Global, text: &mut String, goal: &Feature) -> Result<(), AllocError>
    ensures { OnOk result (string_bytes text.new ≡ string_bytes text.old ++ goal_text goal.now) }
{
    let label = label_text(alloc, &goal.label)?;
    push_member(alloc, text, "{\"package\":", goal.package.as_str())?;
    push_member(alloc, text, ",\"feature\":", label.as_str())?;
    text.push_str("}")?;
    Ok(())
}

// Appends the key as it is given, and then the words as JSON.
#[tactic(auto, unfolding(crate::specs::ExplanationText::json_text))]
fn push_member(alloc: Global, text: &mut String, key: &str, words: &str) -> Result<(), AllocError>
    ensures { OnOk result (string_bytes text.new
        ≡ string_bytes text.old ++ (key.now ++ json_text words.now)) }
{
    text.push_str(key)?;
    let value = Value::String(String::from_str(alloc, words)?);
    let json = value.to_string(alloc)?;
    text.push_str(json.as_str())?;
    Ok(())
}

fn label_text(alloc: Global, label: &Label) -> Result<String, AllocError>
    ensures { IfOk result (λ text. string_bytes text ≡ label_text (label_view label.now)) }
{
    match label {
        Label::Base => Ok(String::new(alloc)),
        Label::Named(name) => Ok(String::from_str(alloc, name.as_str())?),
        Label::Dep(name) => {
            let mut text = String::from_str(alloc, "dep:")?;
            text.push_str(name.as_str())?;
            Ok(text)
        }
    }
}
