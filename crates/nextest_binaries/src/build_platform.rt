//! Target or host.

use std::fmt;

/// The platform that a binary is built for.
#[derive(Clone, Copy, Debug, PartialEq, Eq, Hash)]
pub enum BuildPlatform {
    Host,
    Target,
}

impl fmt::Display for BuildPlatform {
    ghost use Rattle.std.specs.Prelude.{Some};
    ghost use Rattle.nextest_binaries.specs.Platforms.{platform_text};

    ghost output = { λ p. Some (platform_text p) };

    fn fmt<W: fmt::Write>(&self, f: &mut fmt::Formatter<W>) -> fmt::Result {
        match self {
            BuildPlatform::Host => f.write_str("host"),
            BuildPlatform::Target => f.write_str("target"),
        }
    }
}
