//! The folder that a manifest lies in.

ghost use Rattle.std.specs.Prelude.{◌≡◌, IfOk, option_map, string_bytes};
ghost use Rattle.cargo_metadata.specs.Folders as spec;

use std::alloc::{AllocError, Global};

/// The folder of a manifest.
pub fn folder_of(manifest_path: &str) -> &str
    ensures { result.now ≡ spec.folder_of manifest_path.entry.now }
{
    match manifest_path.strip_suffix("/Cargo.toml") {
        Some(folder) => folder,
        None => manifest_path,
    }
}

/// The folder of a package that comes from no source, but lies where its manifest does.
pub(crate) fn own_folder(
    alloc: Global,
    source: &Option<String>,
    manifest_path: &str,
) -> Result<Option<String>, AllocError>
    ensures { IfOk result (λ o. option_map string_bytes o
        ≡ spec.own_folder (option_map string_bytes source.now) manifest_path.now) }
{
    match source {
        Some(_) => Ok(None),
        None => Ok(Some(String::from_str(alloc, folder_of(manifest_path))?)),
    }
}
