//! Ids of packages, read from rows.

use guppy_package_parts::PackageId;
use row_program::{Row, RowFault};
use serde_json::Value;
use std::alloc::{AllocError, Global};

/// The package ids under a key.
pub(crate) fn ids_in(
    alloc: Global,
    row: Row<'_>,
    key: &'static str,
) -> Result<Vec<PackageId>, RowFault> {
    let mut ids = Vec::new(alloc);
    for text in &row.texts(alloc, key)? {
        let id = PackageId::new(String::from_str(alloc, *text)?);
        ids.push(id)?;
    }
    Ok(ids)
}

/// The package id under a key.
pub(crate) fn id_in(
    alloc: Global,
    row: Row<'_>,
    key: &'static str,
) -> Result<Option<PackageId>, RowFault> {
    match row.get(key).and_then(Value::as_str) {
        Some(text) => Ok(Some(PackageId::new(String::from_str(alloc, text)?))),
        None => Ok(None),
    }
}

/// The ids, lent.
pub(crate) fn lent(alloc: Global, ids: &[PackageId]) -> Result<Vec<&PackageId>, AllocError> {
    let mut lent = Vec::with_capacity(alloc, ids.len())?;
    for id in ids {
        lent.push(id)?;
    }
    Ok(lent)
}
