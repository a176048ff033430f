//! Names of links as Rust writes them.

ghost use Rattle.std.specs.Prelude.{◌≡◌, IfOk, map, string_bytes};
ghost use Rattle.guppy_package_table.specs.LinkRows.{name_in_rust};

use guppy_package_parts::LinkRow;
use std::alloc::{AllocError, Global};

/// The name of each link as Rust writes it.
pub(crate) fn rust_names_of(alloc: Global, links: &[LinkRow]) -> Result<Vec<String>, AllocError>
    ensures { IfOk result (λ names. map string_bytes names.items
        ≡ map (λ l. name_in_rust l.name) links.now) }
{
    let mut names = Vec::with_capacity(alloc, links.len())?;
    for row in links {
        names.push(rust_name(alloc, row.name.as_str())?)?;
    }
    Ok(names)
}

fn rust_name(alloc: Global, name: &str) -> Result<String, AllocError>
    ensures { IfOk result (λ t. string_bytes t ≡ name_in_rust name.now) }
{
    let mut text = String::with_capacity(alloc, name.len())?;
    let mut letters = name.chars();
    while let Some(letter) = letters.next() {
        text.push(if letter == '-' { '_' } else { letter })?;
    }
    Ok(text)
}
