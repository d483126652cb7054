ghost use Rattle.std.specs.Prelude.{◌≡◌};
ghost use Rattle.octets.specs.Octets.{seen};
ghost use Rattle.packet.specs.Packet.{apid_of, count_of};
ghost use Rattle.request.specs.Request.{name_of};
ghost use Rattle.schedule.specs.Pending.{pended, moment_of};

use crate::moment::Moment;
use octets::Octets;
use request::read::name_of;

/// What is to be made pending: under which subschedule, for when, and the command's octets.
#[derive(Clone, Copy)]
pub struct Insert<'a> {
    pub subschedule: u16,
    pub tag: u64,
    pub command: &'a [u8],
}

/// A pending command: under which serial and subschedule, for when, and its octets.
#[derive(Clone, Copy)]
pub struct Pending {
    pub serial: u32,
    pub subschedule: u16,
    pub tag: u64,
    octets: Octets<228>,
}

impl Pending {
    /// A pending command; of longer octets than a command may have it keeps the first 228.
    pub fn new(serial: u32, insert: Insert) -> Pending
        ensures { result ≡ pended serial insert.entry.subschedule insert.entry.tag insert.entry.command.now }
    {
        Pending {
            serial,
            subschedule: insert.subschedule,
            tag: insert.tag,
            octets: Octets::new(insert.command),
        }
    }

    /// The command's octets.
    pub fn octets(&self) -> &[u8]
        ensures { result.now ≡ seen self.now.octets }
    {
        self.octets.as_slice()
    }

    /// The command's first four octets, missing ones as zero.
    pub fn name(&self) -> [u8; 4]
        ensures { result ≡ name_of (seen self.now.octets) }
    {
        name_of(self.octets())
    }

    /// The APID that the command is for.
    pub fn apid(&self) -> u16
        ensures { result ≡ apid_of (seen self.now.octets) }
    {
        packet::apid_of(self.octets())
    }

    /// The command's sequence count.
    pub fn sequence_count(&self) -> u16
        ensures { result ≡ count_of (seen self.now.octets) }
    {
        let [_, _, o2, o3] = self.name();
        u16::from_be_bytes([o2, o3]) % 16384
    }

    /// When the command's turn is.
    pub fn turn(&self) -> Moment
        ensures { result ≡ moment_of self.now }
    {
        Moment {
            tag: self.tag,
            serial: u64::from(self.serial),
        }
    }
}
