//! Lists of entries for `Debug`.

ghost use Rattle.std.specs.Iterator.{IsFinite};

use std::fmt;

/// Lists what an iterator yields, as the `Debug` of a list does.
pub fn write_entries<T: fmt::Debug + Drop, I: Iterator<Item = T>, W: fmt::Write>(
    f: &mut fmt::Formatter<W>,
    entries: I,
) -> fmt::Result
    requires can { I.can_next entries }
    requires finite { IsFinite (I.remaining entries) }
{
    f.debug_list().entries(entries).finish()
}
