//! What the entries of a feature's list say.

ghost use Rattle.std.specs.Prelude.{◌≡◌};
ghost use Rattle.workspace_record.specs.Entries.{entry_value};
ghost use Rattle.workspace_record.specs.EntryView.{entry_view};

/// What an entry of a feature's list says.
#[derive(Clone, Copy)]
pub enum Entry<'a> {
    /// `name`: a feature of the same package.
    OwnFeature(&'a str),
    /// `dep:name`: an optional dependency.
    Dependency(&'a str),
    /// `name/feature`: a feature of a dependency, which is switched on with it.
    Strong(&'a str, &'a str),
    /// `name?/feature`: a feature of a dependency, where that is on.
    Weak(&'a str, &'a str),
}

/// What the text of an entry says, by the letter: `dep:d/x` names the optional dependency `d/x`; `/x`, `?/x`
/// and `d/` have empty names; of `d??/x` one question mark is taken off.
pub fn entry_of(text: &str) -> Entry<'_>
    ensures { entry_view result ≡ entry_value text.entry.now }
{
    match text.strip_prefix("dep:") {
        Some(name) => Entry::Dependency(name),
        None => match text.split_once('/') {
            Some((name, feature)) => match name.strip_suffix("?") {
                Some(name) => Entry::Weak(name, feature),
                None => Entry::Strong(name, feature),
            },
            None => Entry::OwnFeature(text),
        },
    }
}
