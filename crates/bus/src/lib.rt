//! The bus: eight mailboxes, each for one APID.

#![tactic(auto)]

ghost use Rattle.std.specs.Prelude.{◌≡◌, []};
ghost use Rattle.bus.specs.Bus.{apids_in, listed, carried, space, why, waiting_in};
ghost use Rattle.bus.specs.Kept.{Sound};
ghost use Rattle.bus.specs.Law.{bus_laws};

mod arrival;
mod mailbox;
mod mailboxes;

use destination::{Destination, Refused};
use mailboxes::Mailboxes;

/// A bus: each listed APID has a mailbox, which holds one packet at most.
#[derive(Drop)]
pub struct Bus {
    // lent to the functions that work on it, so what holds of it is said here
    pub(crate) inner: Mailboxes,
    ghost sound: { Sound inner.boxes },
}

impl Bus {
    /// A bus for the first eight different ones of these numbers that are APIDs, which is 0 to 2047.
    pub fn new(apids: &[u16]) -> Bus
        ensures empty { waiting_in result.inner.boxes ≡ [] }
        ensures mailboxes { apids_in result.inner.boxes ≡ listed apids.now }
    {
        let inner = Mailboxes::new(apids);
        Bus { inner }
    }
}

impl Destination for Bus {
    const KIND: u16 = 2;

    ghost number = { 2 };

    ghost waiting = { λ b. waiting_in b.inner.boxes };

    ghost carries = { λ b p. carried (apids_in b.inner.boxes) p };

    ghost roomy = { λ b p. space b.inner.boxes p };

    ghost cause = { λ b p. why (apids_in b.inner.boxes) p };

    ghost laws = { bus_laws (λ b. b.inner.boxes) (λ b. b.sound.carries) };

    fn kind_number() -> u16 {
        Self::KIND
    }

    fn offer(&mut self, packet: &[u8]) -> Result<(), Refused> {
        self.inner.offer(packet)
    }

    fn take(&mut self, area: &mut [u8]) -> usize {
        self.inner.take(area)
    }
}
