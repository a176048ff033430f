//! Links by the ids at their ends.

ghost use Rattle.std.specs.Prelude.{◌≡◌};

use crate::hashed_id::HashedId;
use crate::numbered::NumberedLink;

/// A numbered link, and the ids of the packages between which it stands.
#[derive(Clone, Copy)]
pub(crate) struct LinkEnds<'g> {
    pub at: NumberedLink<'g>,
    pub from: HashedId<'g>,
    pub to: HashedId<'g>,
    ghost from_row: { from.text.now ≡ at.row.now.from },
    ghost to_row: { to.text.now ≡ at.row.now.to },
}

impl<'g> LinkEnds<'g> {
    /// The ends of a link, which may start at the package with this id.
    pub(crate) fn of(at: NumberedLink<'g>, last: HashedId<'g>) -> LinkEnds<'g>
        ensures { result.at ≡ at.entry }
    {
        let row = at.row;
        let from = last.or_of(row.from.as_str());
        let to = HashedId::of(row.to.as_str());
        LinkEnds { at, from, to }
    }
}
