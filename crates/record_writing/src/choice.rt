//! Choices of features written as files.

ghost use Rattle.std.specs.Prelude.{◌≡◌, IfOk, Ok, map, string_bytes};
ghost use Rattle.serde_json.specs.View.{view};
ghost use Rattle.workspace_record.specs.LabelView.{label_view};
ghost use Rattle.record_files.specs.Choices.{choice_file};
ghost use Rattle.record_files.specs.Files.{Reads};
ghost use Rattle.record_writing.specs.Files.{as_named};
ghost use Rattle.record_writing.specs.Choices.{choice_data, extra_data, label_text, pair_data, standard_name};

use crate::object::{Member, Written, object_of, values_of, with_member};
use serde_json::Value;
use std::alloc::{AllocError, Global};
use workspace_record::{Feature, FeatureChoice, Label, Standard};

/// The file of a choice, in one line. It tells features by the words of Cargo's command line: a feature that
/// is called as an optional dependency is told there is read as that.
pub fn choice_text(alloc: Global, choice: &FeatureChoice) -> Result<String, AllocError>
    ensures reads { IfOk result (λ text. Reads choice_file (string_bytes text)
        (Ok (as_named choice.now))) }
{
    let value = choice_value(alloc, choice)?;
    value.to_string(alloc)
}

fn choice_value(alloc: Global, choice: &FeatureChoice) -> Result<Value, AllocError>
    ensures { IfOk result (λ v. view v ≡ choice_data choice.now) }
{
    let members = [("standard", Member::Text(standard_name(choice.standard)))];
    let extras = Value::Array(values_of(alloc, &choice.extras)?);
    let own = object_of(alloc, &members)?;
    Ok(Value::Object(with_member(alloc, own, "extras", extras)?))
}

impl Written for Feature {
    ghost use Rattle.record_writing.specs.Choices.{extra_data};

    ghost object = { extra_data };

    fn written(&self, alloc: Global) -> Result<Value, AllocError> {
        let feature = label_text(alloc, &self.label)?;
        pair_value(alloc, self.package.as_str(), feature.as_str())
    }
}

fn pair_value<'a>(alloc: Global, package: &'a str, feature: &'a str) -> Result<Value, AllocError>
    ensures { IfOk result (λ v. view v ≡ pair_data «package».entry.now feature.entry.now) }
{
    let members = [
        ("package", Member::Text(package)),
        ("feature", Member::Text(feature)),
    ];
    Ok(Value::Object(object_of(alloc, &members)?))
}

fn label_text(alloc: Global, label: &Label) -> Result<String, AllocError>
    ensures { IfOk result (λ s. string_bytes s ≡ label_text (label_view label.now)) }
{
    match label {
        Label::Base => Ok(String::new(alloc)),
        Label::Named(name) => String::from_str(alloc, name.as_str()),
        Label::Dep(name) => format!(in alloc; "dep:{name}"),
    }
}

fn standard_name(standard: Standard) -> &'static str
    ensures { result.now ≡ standard_name standard }
{
    match standard {
        Standard::None => "none",
        Standard::Default => "default",
        Standard::All => "all",
    }
}
