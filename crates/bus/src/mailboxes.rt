ghost use Rattle.std.specs.Prelude.{◌≡◌, ◌<◌, false, [], length};
ghost use Rattle.destination.specs.Destination.{offered, waiting_after, given, left, laid};
ghost use Rattle.bus.specs.Bus.{apids_in, listed, carried, space, why, waiting_in};
ghost use Rattle.bus.specs.Changes.{place_for, given as given_for};
ghost use Rattle.bus.specs.Kept.{Sound};

use crate::arrival::oldest;
use crate::mailbox::{Mailbox, count_filled, find, find_unused, lower_ranks};
use destination::{LONGEST, Refused, check_length};
use packet::apid_of;

/// Why a packet is refused.
enum Cause {
    /// Its mailbox is filled.
    Filled = 3,
    /// Its APID is not listed.
    NotListed = 4,
}

/// The mailboxes, with no invariant of their own, so that one may be lent.
#[derive(Drop)]
pub struct Mailboxes {
    pub(crate) boxes: [Mailbox; 8],
}

/// The place of the mailbox that is to be for a number, if it is to be listed and one is unused.
fn place_for(boxes: &[Mailbox], number: u16) -> Option<usize>
    ensures { result ≡ place_for boxes.now number }
{
    if number > 2047 || find(boxes, number).is_some() {
        return None;
    }
    find_unused(boxes)
}

impl Mailboxes {
    pub(crate) fn new(apids: &[u16]) -> Mailboxes
        ensures { result.boxes ≡ given_for (listed apids.now) }
    {
        let mut boxes = [Mailbox::UNUSED; 8];
        for apid in apids {
            if let Some(place) = place_for(&boxes, *apid) {
                boxes[place] = Mailbox::new(*apid);
            }
        }
        Mailboxes { boxes }
    }

    pub(crate) fn offer(&mut self, packet: &[u8]) -> Result<(), Refused>
        requires { Sound self.old.boxes }
        ensures answer { result ≡ offered (carried (apids_in self.old.boxes) packet.now) (space self.old.boxes packet.now) (why (apids_in self.old.boxes) packet.now) }
        ensures waiting { waiting_in self.new.boxes ≡ waiting_after (carried (apids_in self.old.boxes) packet.now) (space self.old.boxes packet.now) (waiting_in self.old.boxes) packet.now }
        ensures fixed { apids_in self.new.boxes ≡ apids_in self.old.boxes }
        ensures never { carried (apids_in self.old.boxes) packet.now ≡ false → self.new ≡ self.old }
        ensures not_now { space self.old.boxes packet.now ≡ false → self.new ≡ self.old }
        ensures sound { Sound self.new.boxes }
    {
        check_length(packet)?;
        let unlisted = Refused::Never(Cause::NotListed as u16);
        let place = find(&self.boxes, apid_of(packet)).ok_or(unlisted)?;
        if self.boxes[place].is_full() {
            return Err(Refused::NotNow(Cause::Filled as u16));
        }
        // the filled ones have the ranks below their number, so that is free
        let rank = count_filled(&self.boxes);
        self.boxes[place].put(rank as u8, packet);
        Ok(())
    }

    pub(crate) fn take(&mut self, area: &mut [u8]) -> usize
        requires { Sound self.old.boxes }
        ensures answer { result ≡ length (given (length area.old) (waiting_in self.old.boxes)) }
        ensures area { area.new ≡ laid (given (length area.old) (waiting_in self.old.boxes)) area.old }
        ensures waiting { waiting_in self.new.boxes ≡ left (length area.old) (waiting_in self.old.boxes) }
        ensures fixed { apids_in self.new.boxes ≡ apids_in self.old.boxes }
        ensures short { length area.old < 228 → self.new ≡ self.old }
        ensures empty { waiting_in self.old.boxes ≡ [] → self.new ≡ self.old }
        ensures sound { Sound self.new.boxes }
    {
        if area.len() < LONGEST {
            return 0;
        }
        let Some(place) = oldest(&self.boxes) else {
            return 0;
        };
        let held = self.boxes[place].packet.as_ref().unwrap();
        let n = held.copy_to(area);
        lower_ranks(&mut self.boxes);
        n
    }
}
