ghost use Rattle.std.specs.Prelude.{◌≡◌, ◌≤◌, map, length};
ghost use Rattle.std.specs.List.{position};
ghost use Rattle.octets.specs.Octets.{seen};
ghost use Rattle.destination.specs.Destination.{laid};
ghost use Rattle.bus.specs.Bus.{is_full, is_unused, is_for, filled};
ghost use Rattle.bus.specs.Changes.{fresh, holding, lowered};

use destination::LONGEST;
use octets::Octets;

/// A packet that is held.
#[derive(Clone, Copy)]
pub struct Held {
    // its place in arrival, 0 for the oldest
    pub(crate) rank: u8,
    pub(crate) octets: Octets<LONGEST>,
}

impl Held {
    /// Copies the packet to the start of the area, and answers its length.
    pub(crate) fn copy_to(&self, area: &mut [u8]) -> usize
        requires { 228 ≤ length area.old }
        ensures answer { result ≡ length (seen self.now.octets) }
        ensures area { area.new ≡ laid (seen self.now.octets) area.old }
    {
        let octets = self.octets.as_slice();
        area[..octets.len()].copy_from_slice(octets);
        octets.len()
    }
}

/// A mailbox: at most one packet, for one APID.
#[derive(Clone, Copy)]
pub struct Mailbox {
    // none where no APID was given
    pub(crate) apid: Option<u16>,
    pub(crate) packet: Option<Held>,
}

impl Mailbox {
    pub(crate) const UNUSED: Mailbox = Mailbox {
        apid: None,
        packet: None,
    };

    pub(crate) fn new(apid: u16) -> Mailbox
        ensures { result ≡ fresh apid }
    {
        Mailbox {
            apid: Some(apid),
            packet: None,
        }
    }

    pub(crate) fn is_unused(&self) -> bool
        ensures { result ≡ is_unused self.now }
    {
        self.apid.is_none()
    }

    pub(crate) fn is_full(&self) -> bool
        ensures { result ≡ is_full self.now }
    {
        self.packet.is_some()
    }

    pub(crate) fn put(&mut self, rank: u8, packet: &[u8])
        ensures { self.new ≡ holding self.old rank packet.now }
    {
        let held = Held {
            rank,
            octets: Octets::new(packet),
        };
        self.packet = Some(held);
    }

    /// Moves the packet up by one in arrival; the oldest is let go.
    pub(crate) fn move_up(&mut self)
        ensures { self.new ≡ lowered self.old }
    {
        let Some(packet) = &mut self.packet else {
            return;
        };
        match packet.rank.checked_sub(1) {
            Some(rank) => packet.rank = rank,
            None => self.packet = None,
        }
    }
}

/// The place of an APID's mailbox.
pub(crate) fn find(boxes: &[Mailbox], apid: u16) -> Option<usize>
    ensures { result ≡ position (is_for apid) boxes.now }
{
    boxes.iter().position(|mailbox| mailbox.apid == Some(apid))
}

/// The place of the first mailbox that is for no APID yet.
pub(crate) fn find_unused(boxes: &[Mailbox]) -> Option<usize>
    ensures { result ≡ position is_unused boxes.now }
{
    boxes.iter().position(|mailbox| mailbox.is_unused())
}

pub(crate) fn count_filled(boxes: &[Mailbox]) -> usize
    ensures { result ≡ filled boxes.now }
{
    boxes.iter().filter(|mailbox| mailbox.is_full()).count()
}

/// Moves every packet up by one in arrival; the oldest is thereby let go.
pub(crate) fn lower_ranks(boxes: &mut [Mailbox])
    ensures { boxes.new ≡ map lowered boxes.old }
{
    for mailbox in boxes.iter_mut() {
        mailbox.move_up();
    }
}
