//! Rooms that a caller lends, filled.

ghost use Rattle.std.specs.Prelude.{◌≡◌};
ghost use Rattle.test_select_c.specs.Rooms.{fitted};

/// Writes as much of the text as fits.
pub(crate) fn fill(room: &mut [u8], text: &[u8])
    ensures { room.new ≡ fitted text.now room.old }
{
    let fits = text.len().min(room.len());
    room[..fits].copy_from_slice(&text[..fits]);
}
