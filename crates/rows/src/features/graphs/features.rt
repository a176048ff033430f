//! Features named by rows, as `package/name`, `package/dep:name` or `package/[base]`.

use guppy_feature_graph::{FeatureGraph, FeatureId, FeatureLabel, FeatureList, FeatureSet};
use guppy_package_graph::PackageId;
use row_program::{Answers, Row, RowFault};
use std::alloc::{AllocError, Global};
use std::fmt::Display;

/// A package's id, and what its feature is called.
#[derive(Drop)]
pub(crate) struct Named<'a> {
    package_id: PackageId,
    label: FeatureLabel<'a>,
}

impl Named<'_> {
    pub(crate) fn id(&self) -> FeatureId<'_> {
        FeatureId::new(&self.package_id, self.label)
    }
}

/// The feature that a text names.
pub(crate) fn read_feature<'a>(alloc: Global, text: &'a str) -> Result<Named<'a>, AllocError> {
    let (package, name) = text.split_once('/').unwrap_or((text, "[base]"));
    let package_id = PackageId::new(String::from_str(alloc, package)?);
    let label = match name.strip_prefix("dep:") {
        Some(dep) => FeatureLabel::OptionalDependency(dep),
        None if name == "[base]" => FeatureLabel::Base,
        None => FeatureLabel::Named(name),
    };
    Ok(Named { package_id, label })
}

/// The features under a key.
pub(crate) fn named_in<'a>(
    alloc: Global,
    row: Row<'a>,
    key: &'static str,
) -> Result<Vec<Named<'a>>, RowFault> {
    let mut all = Vec::new(alloc);
    for text in &row.texts(alloc, key)? {
        all.push(read_feature(alloc, *text)?)?;
    }
    Ok(all)
}

/// Their ids.
pub(crate) fn ids_of<'b>(
    alloc: Global,
    all: &'b [Named<'_>],
) -> Result<Vec<FeatureId<'b>>, AllocError> {
    let mut ids = Vec::with_capacity(alloc, all.len())?;
    for one in all {
        ids.push(one.id())?;
    }
    Ok(ids)
}

/// A graph, and its features in the order of their numbers.
#[derive(Clone, Copy)]
pub(crate) struct Asked<'a, 'g> {
    pub graph: FeatureGraph<'g>,
    pub features: &'a [FeatureId<'g>],
}

/// Tells those of these features that are in a set which was made, or why it was not.
pub(crate) fn tell_members<E: Display + Drop>(
    key: &'static str,
    set: Result<FeatureSet<'_>, E>,
    features: &[FeatureId<'_>],
    answers: &mut Answers,
) {
    match set {
        Ok(set) => {
            answers.begin(key);
            add_members(&set, features, answers);
        }
        Err(error) => answers.show(key, &error),
    }
}

/// Adds those of these features that are in a set, parted by spaces.
pub(crate) fn add_members(set: &FeatureSet<'_>, features: &[FeatureId<'_>], answers: &mut Answers) {
    let mut is_first = true;
    for id in features {
        if let Ok(true) = set.contains(*id) {
            answers.part(if is_first { "" } else { " " }, id);
            is_first = false;
        }
    }
}

/// The features of a list, as they are printed.
pub(crate) fn shown_text(alloc: Global, list: &FeatureList<'_>) -> Result<String, AllocError> {
    let shown = list.display_features();
    format!(in alloc; "{shown}")
}
