ghost use Rattle.std.specs.Prelude.{◌≡◌, length, Some, slice_set};
ghost use Rattle.schedule.specs.Slots.{free_slot};

use crate::pending::Pending;

/// The first free slot, if there is one.
pub fn first_free(slots: &[Option<Pending>]) -> Option<usize>
    ensures { result ≡ free_slot slots.now }
{
    slots.iter().position(|slot| slot.is_none())
}

/// Puts a command into a slot; where there is no such slot, nothing changes.
pub fn put(slots: &mut [Option<Pending>], place: usize, pending: Pending)
    ensures after { slots.new ≡ slice_set slots.old place (Some pending) }
    ensures size { length slots.new ≡ length slots.old }
{
    // By `get_mut` it did not prove: of its slice nothing is known but the length.
    if place < slots.len() {
        slots[place] = Some(pending);
    }
}
