//! The trait of listers.

ghost use Rattle.nextest_binaries.specs.Listers.{Shown, Lists};

use crate::binary_info::BinaryInfo;
use crate::fault::ListFault;

/// The names of the tests in a binary.
pub type Listing = Vec<String>;

/// Answers the tests of a binary, and keeps the ids that it was asked for and a count of the calls
/// that failed.
///
/// A call first appends the binary's id to those asked. Where there is no room for it the call
/// fails, and the id isn't appended. A call that fails raises the count by one, and one that
/// answers leaves it. At its largest value, that of a `u64`, the count stays, and from then on
/// every call fails. An answer is the listing that the lister holds for the id, and no call changes
/// what it holds for any id.
pub trait TestLister {
    /// The ids that were asked, the count of calls that failed, and the listing held for each id.
    ghost shown: { Self → Shown };

    /// The names of the tests in the binary.
    fn list(&mut self, binary: &BinaryInfo<'_>) -> Result<Listing, ListFault>
        ensures { Lists (shown self.old) binary.now.id.now result (shown self.new) };
}
