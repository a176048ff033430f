//! The default edition.

/// The edition of a package or target that names none.
pub(crate) const DEFAULT_EDITION: &str = "2021";
