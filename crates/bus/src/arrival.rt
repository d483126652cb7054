ghost use Rattle.std.specs.Prelude.{◌≡◌, map};
ghost use Rattle.bus.specs.Arrival.{rank_of, Oldest};
ghost use Rattle.bus.specs.Kept.{Ranked};
ghost use Rattle.std.proofs.Common.{rules};

use crate::mailbox::Mailbox;
use search::{Places, least_from};

/// The mailboxes as places of packets, each with its rank.
#[derive(Clone, Copy)]
pub struct Arrivals<'a> {
    pub(crate) boxes: &'a [Mailbox],
}

impl Places for Arrivals<'_> {
    type Key = u8;

    ghost keys = { λ a. map rank_of a.boxes.now };

    ghost apart = { Prim.search rules };

    fn count(&self) -> usize {
        self.boxes.len()
    }

    fn key_at(&self, place: usize) -> Option<u8> {
        let held = self.boxes.get(place)?.packet.as_ref()?;
        Some(held.rank)
    }
}

/// The place of the mailbox with the oldest packet.
pub(crate) fn oldest(boxes: &[Mailbox]) -> Option<usize>
    requires { Ranked boxes.now }
    ensures { Oldest boxes.now result }
{
    least_from(&Arrivals { boxes }, &0).map(|found| found.place)
}
