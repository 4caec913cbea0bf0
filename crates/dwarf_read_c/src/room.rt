//! The arrays that a caller passes for items.

ghost use Rattle.dwarf_read_c.specs.Room.{Puts};

use crate::status::{DWARF_NO_ROOM, DWARF_OK};

// Copies the items to the front of the array, or none of them if there isn't room for all.
#[tactic(auto, using(crate::specs::Room::put, crate::specs::Room::full))]
pub(crate) fn put<T: Copy>(items: &[T], places: &mut [T]) -> u32
    ensures { Puts items.now places.old places.new result }
{
    let count = items.len();
    if places.len() < count {
        return DWARF_NO_ROOM;
    }
    places[..count].copy_from_slice(items);
    DWARF_OK
}
