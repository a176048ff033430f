//! What a word of `--features` says.

ghost use Rattle.std.specs.Prelude.{◌≡◌};
ghost use Rattle.cargo_files.specs.Words.{word_value};
ghost use Rattle.cargo_files.specs.WordView.{word_view};

/// What a word of `--features` says.
#[derive(Clone, Copy)]
pub(crate) enum Word<'a> {
    /// `NAME`: this feature of each member that has it.
    OfEach(&'a str),
    /// `PACKAGE/NAME`: this feature of the member of this name.
    OfMember(&'a str, &'a str),
}

pub(crate) fn word_of(text: &str) -> Word<'_>
    ensures { word_view result ≡ word_value text.entry.now }
{
    match text.split_once('/') {
        Some((owner, name)) => Word::OfMember(owner, name),
        None => Word::OfEach(text),
    }
}
