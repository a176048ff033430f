//! The choice that a command line means.

ghost use Rattle.std.specs.Prelude.{◌≡◌, ◌++◌, [], IfErr, IfOk, OnOk, map};
ghost use Rattle.cargo_files.specs.Meaning.{AllMean, Refuses, RefusesFirst, meant, meant_by, standard_of};
ghost use Rattle.cargo_files.specs.Words.{word_value};

use crate::choice_fault::ChoiceFault;
use crate::meaning::meant_by_word;
use crate::refusing::refused;
use std::alloc::Global;
use workspace_record::{Feature, FeatureChoice, RecordIndex, Standard, WorkspaceRecord};

/// What a command line asks of features: the words of `--features`, and the two flags.
#[derive(Clone, Copy)]
pub struct FeatureWords<'a> {
    pub features: &'a [&'a str],
    pub no_default_features: bool,
    pub all_features: bool,
}

/// The choice that the words mean for a record. A `NAME` is that feature of each member that has it,
/// and a `PACKAGE/NAME` that of the member. The first word that means
/// nothing is refused.
pub fn choice_of(
    alloc: Global,
    record: &WorkspaceRecord,
    words: FeatureWords<'_>,
) -> Result<FeatureChoice, ChoiceFault>
    ensures standard { IfOk result (λ c. c.standard
        ≡ standard_of words.entry.all_features words.entry.no_default_features) }
    ensures extras { IfOk result (λ c. c.extras
        ≡ meant_by record.now (map (λ t. t.now) words.entry.features.now)) }
    ensures known { IfOk result (λ _. AllMean record.now
        (map (λ t. t.now) words.entry.features.now)) }
    ensures refused { IfErr result (RefusesFirst record.now
        (map (λ t. t.now) words.entry.features.now)) }
{
    let index = RecordIndex::of(alloc, record)?;
    let extras = extras_of(alloc, &index, words.features)?;
    let standard = if words.all_features {
        Standard::All
    } else if words.no_default_features {
        Standard::None
    } else {
        Standard::Default
    };
    Ok(FeatureChoice { standard, extras })
}

/// The features that the words mean.
fn extras_of(
    alloc: Global,
    index: &RecordIndex<'_>,
    words: &[&str],
) -> Result<Vec<Feature>, ChoiceFault>
    ensures extras { IfOk result (λ v. v.items ≡ meant_by index.now (map (λ t. t.now) words.now)) }
    ensures known { IfOk result (λ _. AllMean index.now (map (λ t. t.now) words.now)) }
    ensures refused { IfErr result (RefusesFirst index.now (map (λ t. t.now) words.now)) }
{
    let mut extras = Vec::new(alloc);
    for word in words {
        push_word(alloc, &mut extras, index, word)?;
    }
    Ok(extras)
}

/// Adds the features that a word means.
fn push_word(
    alloc: Global,
    extras: &mut Vec<Feature>,
    index: &RecordIndex<'_>,
    word: &str,
) -> Result<(), ChoiceFault>
    ensures pushed { OnOk result (extras.new.items
        ≡ extras.old.items ++ meant index.now (word_value word.now)) }
    ensures known { OnOk result (meant index.now (word_value word.now) ≡ [] → ⊥) }
    ensures refused { IfErr result (Refuses index.now word.now) }
{
    let mut meant = meant_by_word(alloc, index, word)?;
    if meant.is_empty() {
        return Err(refused(alloc, index, word)?);
    }
    extras.append(&mut meant)?;
    Ok(())
}
