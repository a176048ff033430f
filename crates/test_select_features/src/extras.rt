//! The extra features of a choice, against what workspace packages have.

ghost use Rattle.std.specs.Prelude.{◌≡◌, not, position};
ghost use Rattle.workspace_record.specs.LabelView.{label_view};
ghost use Rattle.test_select_features.specs.Known.{has_label, is_known_extra, is_known_feature};

use workspace_record::{Feature, FeatureChoice, Label, PackageIndex, RecordIndex};

/// The place of the first extra that no workspace package has.
pub(crate) fn unknown_extra(index: &RecordIndex<'_>, choice: &FeatureChoice) -> Option<usize>
    ensures { result ≡ position (λ f. not (is_known_extra index.now f)) choice.now.extras }
{
    choice
        .extras
        .iter()
        .position(|extra| !is_known_extra(index, extra))
}

fn is_known_extra(index: &RecordIndex<'_>, extra: &Feature) -> bool
    ensures { result ≡ is_known_extra index.now extra.now }
{
    index.is_workspace_package(extra.package.as_str()) && is_known_feature(index, extra)
}

fn is_known_feature(index: &RecordIndex<'_>, extra: &Feature) -> bool
    ensures { result ≡ is_known_feature index.now extra.now }
{
    match index.package_of(extra.package.as_str()) {
        None => false,
        Some(owner) => has_label(owner, &extra.label),
    }
}

fn has_label(owner: &PackageIndex<'_>, label: &Label) -> bool
    ensures { result ≡ has_label owner.now (label_view label.now) }
{
    match label {
        Label::Base => true,
        Label::Named(name) => owner.has_feature(name.as_str()),
        Label::Dep(name) => owner.has_optional(name.as_str()),
    }
}
