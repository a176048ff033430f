//! Package ids with their hashes.

ghost use Rattle.std.specs.Prelude.{◌≡◌};
ghost use Rattle.workspace_record.specs.Equality.{text_eq};
ghost use Rattle.guppy_feature_demands.specs.IdHashes.{text_hash};

/// A package's id with its hash, which is taken once for all that is asked of the package.
#[derive(Clone, Copy)]
pub(crate) struct HashedId<'g> {
    pub text: &'g str,
    pub hash: u64,
    ghost known: { hash ≡ text_hash text.now },
}

impl<'g> HashedId<'g> {
    /// An id and its hash.
    #[tactic(auto, unfolding(crate::specs::IdHashes::text_hash))]
    pub(crate) fn of(text: &'g str) -> HashedId<'g>
        ensures { result.text.now ≡ text.entry.now }
    {
        let mut hash: u64 = 0;
        for byte in text.as_bytes() {
            hash = hash.wrapping_mul(FACTOR).wrapping_add(*byte as u64);
        }
        HashedId { text, hash }
    }

    /// The id with this text: that one again, where it has the text.
    pub(crate) fn or_of(self, text: &'g str) -> HashedId<'g>
        ensures { result.text.now ≡ text.entry.now }
    {
        if self.text == text {
            self
        } else {
            HashedId::of(text)
        }
    }

    /// Whether two ids are the same.
    pub(crate) fn is(self, other: HashedId<'_>) -> bool
        ensures { result ≡ text_eq self.entry.text.now other.entry.text.now }
    {
        self.hash == other.hash && self.text == other.text
    }
}

const FACTOR: u64 = 1_099_511_628_211;
