//! Spans of a text.

ghost use Rattle.std.specs.Prelude.{◌≡◌};

/// Where a part of a text stands, in bytes.
#[derive(Clone, Copy, Debug, PartialEq, Eq, Hash)]
pub struct SourceSpan {
    pub offset: usize,
    pub len: usize,
}

impl SourceSpan {
    /// The place of its first byte.
    pub fn offset(&self) -> usize
        ensures { result ≡ self.now.offset }
    {
        self.offset
    }

    /// How many bytes it covers.
    pub fn len(&self) -> usize
        ensures { result ≡ self.now.len }
    {
        self.len
    }
}

impl From<(usize, usize)> for SourceSpan {
    ghost use Rattle.std.specs.Prelude.{◌≡◌};

    ghost from_gives = { λ pair span. span ≡ record { offset = pair.0; len = pair.1 } };

    fn from((offset, len): (usize, usize)) -> SourceSpan {
        SourceSpan { offset, len }
    }
}
