//! Where a package may be published.

ghost use Rattle.std.specs.Prelude.{◌≡◌, ◌↔◌, [], IsTrue, Some, codes, is_none};
ghost use Rattle.guppy_package_parts.specs.Publishing.{may_publish_to};
ghost use Rattle.guppy_package_parts.specs.PublishView.{publish_view};

use crate::texts::contains_text;
use workspace_record::PackageRecord;

/// The registries that a package may be published to.
#[derive(Clone, Copy, Debug, PartialEq, Eq)]
pub enum PackagePublish<'g> {
    /// Any.
    Unrestricted,
    /// These alone; none, where the list is empty.
    Registries(&'g [String]),
}

impl<'g> PackagePublish<'g> {
    /// The name of crates.io.
    pub const CRATES_IO: &'static str = "crates-io";

    /// Where the package of a row may be published.
    pub fn of(row: &'g PackageRecord) -> PackagePublish<'g>
        ensures { publish_view result ≡ row.entry.now.info.publish }
    {
        match &row.info.publish {
            None => PackagePublish::Unrestricted,
            Some(registries) => PackagePublish::Registries(registries.as_slice()),
        }
    }

    /// Whether the manifest names no registries.
    pub fn is_unrestricted(&self) -> bool
        ensures { result ≡ is_none (publish_view self.now) }
    {
        matches!(self, PackagePublish::Unrestricted)
    }

    /// Whether the package may be published to the registry of this name.
    pub fn can_publish_to(&self, registry: &str) -> bool
        ensures { result ≡ may_publish_to registry.now (publish_view self.now) }
    {
        match self {
            PackagePublish::Unrestricted => true,
            PackagePublish::Registries(registries) => contains_text(*registries, registry),
        }
    }

    /// The same of crates.io, whose name is `crates-io`.
    pub fn can_publish_to_crates_io(&self) -> bool
        ensures { result ≡ may_publish_to (codes "crates-io") (publish_view self.now) }
    {
        self.can_publish_to(Self::CRATES_IO)
    }

    /// Whether no registry is named, and so none may be published to.
    pub fn is_never(&self) -> bool
        ensures { IsTrue result ↔ (publish_view self.now ≡ Some []) }
    {
        match self {
            PackagePublish::Unrestricted => false,
            PackagePublish::Registries(registries) => registries.is_empty(),
        }
    }
}
