//! What is worked out for a binary before its tests are asked about.

use nextest_binaries::BinaryQuery;

/// What is known before a test of a binary is asked about.
#[derive(Clone, Copy)]
pub struct ReadyContext<'a> {
    pub binary_query: BinaryQuery<'a>,
    /// The names of the groups that a test may be in, by their places.
    pub group_names: &'a [&'a str],
    /// Whether the default filter holds.
    pub default: bool,
}

impl<'a> ReadyContext<'a> {
    ghost use Rattle.std.specs.Prelude.{◌≡◌};

    /// The context of the binary's tests, in groups with these names.
    pub fn new(
        binary_query: BinaryQuery<'a>,
        group_names: &'a [&'a str],
        default: bool,
    ) -> ReadyContext<'a>
        ensures binary { result.binary_query ≡ binary_query.entry }
        ensures names { result.group_names.now ≡ group_names.entry.now }
        ensures default { result.default ≡ default }
    {
        ReadyContext {
            binary_query,
            group_names,
            default,
        }
    }
}
