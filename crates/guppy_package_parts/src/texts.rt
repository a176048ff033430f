//! Texts looked for in lists of texts.

ghost use Rattle.std.specs.Prelude.{◌≡◌, not};
ghost use Rattle.std.specs.List.{list_any};
ghost use Rattle.std.specs.Str.{bytes_eq};
ghost use Rattle.list_facts.specs.Texts.{texts};

/// Whether one of the names is this text.
pub fn contains_text(names: &[String], text: &str) -> bool
    ensures { result ≡ list_any (bytes_eq text.now) (texts names.now) }
{
    names.iter().any(|name| name.as_str() == text)
}

pub(crate) fn contains_other_text(names: &[String], text: &str) -> bool
    ensures { result ≡ list_any (λ name. not (bytes_eq text.now name)) (texts names.now) }
{
    names.iter().any(|name| name.as_str() != text)
}
