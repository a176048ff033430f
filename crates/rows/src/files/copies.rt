//! Values that are read, beside their copies.

use record_files::AccountFile;
use std::alloc::{AllocError, Global};
use std::collections::BTreeMap;
use workspace_record::{FeatureChoice, PlatformTable, WorkspaceRecord};

/// What can be compared with its copy, where it has one.
pub(crate) trait Copied {
    fn is_its_copy(&self, _alloc: Global) -> Result<bool, AllocError> {
        Ok(true)
    }
}

impl Copied for WorkspaceRecord {
    fn is_its_copy(&self, alloc: Global) -> Result<bool, AllocError> {
        Ok(self.copy(alloc)? == *self)
    }
}

impl Copied for FeatureChoice {
    fn is_its_copy(&self, alloc: Global) -> Result<bool, AllocError> {
        Ok(self.copy(alloc)? == *self)
    }
}

impl Copied for PlatformTable {
    fn is_its_copy(&self, alloc: Global) -> Result<bool, AllocError> {
        Ok(self.copy(alloc)? == *self)
    }
}

/// Accounts have no copy of their own.
impl Copied for AccountFile {}

/// Listings have no copy of their own.
impl Copied for BTreeMap<String, Vec<String>> {}
