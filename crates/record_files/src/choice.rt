//! Choices of features read from their files.

ghost use Rattle.std.specs.Prelude.{◌≡◌, IfOk};
ghost use Rattle.record_files.specs.Trees.{seen};
ghost use Rattle.workspace_record.specs.LabelView.{label_view};
ghost use Rattle.record_files.specs.Files.{ReadsFile};
ghost use Rattle.record_files.specs.Outcomes.{Gives};
ghost use Rattle.record_files.specs.Choices.{standard_named, label_of, choice_of, choice_file};

use crate::error::ReadError;
use crate::file::value_of;
use crate::key::Key;
use crate::object::{FromValue, each_of, given, object_of, objects_or_none, text_at};
use json::{Scratch, Value};
use std::alloc::{AllocError, Global};
use workspace_record::{Feature, FeatureChoice, Label, Standard};

/// Reads a choice of features: `standard`, one of `none`, `default` and `all`, and `extras`, a list
/// of objects with a package id as `package` and a `feature`.
///
/// A feature is written as for Cargo's `--features`: the empty text is the package itself, `dep:d`
/// the optional dependency `d`, and any other text the feature of that name. As in Cargo, the
/// standard features that are left out are the default ones; the extras are then none.
pub fn read_choice(alloc: Global, bytes: &[u8]) -> Result<FeatureChoice, ReadError>
    ensures reads { ReadsFile (λ c. c) choice_file bytes.now result }
{
    let mut scratch = Scratch::new(alloc);
    let value = value_of(alloc, bytes, &mut scratch)?;
    choice_of(alloc, object_of(&value, Key::File)?)
}

#[tactic(auto, unfolding(crate::specs::Choices::choice_of))]
fn choice_of(alloc: Global, value: &Value<'_>) -> Result<FeatureChoice, ReadError>
    ensures { Gives (λ c. c) result (choice_of (seen value.now)) }
{
    let standard = match given(value, Key::Standard) {
        None => Standard::Default,
        Some(name) => {
            let standard = name.as_str().and_then(standard_named);
            standard.ok_or(ReadError::at(Key::Standard))?
        }
    };
    let none = Vec::new(alloc);
    let extra_values = objects_or_none(value, Key::Extras, &none)?;
    let extras = each_of::<Feature>(alloc, extra_values)?;
    Ok(FeatureChoice { standard, extras })
}

fn standard_named(name: &str) -> Option<Standard>
    ensures { result ≡ standard_named name.now }
{
    match name {
        "none" => Some(Standard::None),
        "default" => Some(Standard::Default),
        "all" => Some(Standard::All),
        _ => None,
    }
}

impl FromValue for Feature {
    ghost use Rattle.record_files.specs.Choices.{extra_of};

    ghost read = { extra_of };

    /// A feature of a package: the package's id, and the feature's text.
    #[tactic(auto, unfolding(crate::specs::Choices::extra_of))]
    fn from_value(alloc: Global, value: &Value<'_>) -> Result<Feature, ReadError> {
        let package = text_at(alloc, value, Key::Package)?;
        let feature = text_at(alloc, value, Key::Feature)?;
        let label = label_of(alloc, feature.as_str())?;
        Ok(Feature { package, label })
    }
}

// Public, so that a word of the command line is read as a choice is.
/// The label that a text names, as in a choice: the empty text the package itself, `dep:d` the optional
/// dependency `d`, and any other text the feature of that name.
pub fn label_of(alloc: Global, text: &str) -> Result<Label, AllocError>
    ensures label { IfOk result (λ l. label_view l ≡ label_of text.now) }
{
    if text.is_empty() {
        return Ok(Label::Base);
    }
    match text.strip_prefix("dep:") {
        Some(name) => Ok(Label::Dep(String::from_str(alloc, name)?)),
        None => Ok(Label::Named(String::from_str(alloc, text)?)),
    }
}
