//! A package, with its features and its optional dependencies found by name.

ghost use Rattle.std.specs.Prelude.{◌≡◌, IfOk};
ghost use Rattle.workspace_record.specs.Packages.{has_feature, has_optional};

use crate::package::PackageRecord;
use crate::text_sets::text_set;
use indexmap::IndexSet;
use std::alloc::{AllocError, Global};
use std::marker::Model;

/// A package of a record.
pub struct PackageIndex<'a> {
    row: &'a PackageRecord,
    features: IndexSet<&'a str>,
    optional: IndexSet<&'a str>,
}

// Written out, so that a function that lets one go takes one step.
impl Drop for PackageIndex<'_> {
    fn drop(self) {
        let PackageIndex {
            row: _,
            features,
            optional,
        } = self;
        drop(features);
        drop(optional);
    }
}

impl<'a> Model for PackageIndex<'a> {
    ghost use Rattle.workspace_record.specs.Records.{Package};
    ghost use Rattle.workspace_record.specs.Indices.{FindsNames};

    ghost Value = { Package };

    ghost view = { λ p. p.row.now };

    ghost invariant = { λ p. FindsNames p.row.now p.features p.optional };
}

impl<'a> PackageIndex<'a> {
    pub(crate) fn of(alloc: Global, row: &'a PackageRecord) -> Result<PackageIndex<'a>, AllocError>
        ensures { IfOk result (λ p. p ≡ row.entry.now) }
    {
        let features = text_set(alloc, &row.features, |feature| feature.name.as_str())?;
        match text_set(alloc, &row.optional, |name| name.as_str()) {
            Ok(optional) => Ok(PackageIndex {
                row,
                features,
                optional,
            }),
            Err(refused) => {
                drop(features);
                Err(refused)
            }
        }
    }

    /// The package's record.
    pub fn row(&self) -> &'a PackageRecord
        ensures value { result.now ≡ self.now }
    {
        self.row
    }

    /// Whether the package's manifest names the feature.
    pub fn has_feature(&self, name: &str) -> bool
        ensures answer { result ≡ has_feature self.now name.now }
    {
        self.features.contains(name)
    }

    /// Whether the package has an optional dependency of this name.
    pub fn has_optional(&self, name: &str) -> bool
        ensures answer { result ≡ has_optional self.now name.now }
    {
        self.optional.contains(name)
    }
}
