//! Telecommand packets: one reader, for a request and for the command inside an insert.

#![tactic(auto)]

ghost use Rattle.std.specs.Prelude.{◌≡◌, ℕ, ◌+◌, ◌-◌, ◌≤◌, cond, length, take, IfOk, Ok, Err};
ghost use Rattle.packet.specs.Octets.{word_at};
ghost use Rattle.packet.specs.Packet.{most_of, admits, fault_failure, length_right, length_fault, apid_of, read_of, meant};

use check_field::check_field;

/// Where a packet stands: as a request, or as the command inside one.
#[derive(Clone, Copy)]
pub enum Role {
    Request,
    Command,
}

impl Role {
    /// The most octets that a packet may have here.
    pub fn most(self) -> usize
        ensures { result ≡ most_of self }
    {
        match self {
            Role::Request => 248,
            Role::Command => 228,
        }
    }

    /// Whether a packet here may be for this APID.
    pub fn admits(self, apid: u16) -> bool
        ensures { result ≡ admits self apid }
    {
        match self {
            Role::Request => apid == 16,
            Role::Command => true,
        }
    }
}

/// What is wrong with a packet, with the two numbers that say more of it.
#[derive(Clone, Copy)]
pub enum Fault {
    /// The number of octets is not allowed, or the length field disagrees.
    Length { octets: u16, field: u16 },
    /// The check field disagrees.
    CheckField { received: u16, computed: u16 },
    /// Version, type, header or flag bits are wrong, or the APID: octets 0 and 1, 2 and 3.
    Header { first: u16, second: u16 },
    /// The upper half of octet 6 is not 1, or octet 9 is not zero: octets 6 and 7, 8 and 9.
    DataHeader { first: u16, second: u16 },
}

/// A failure as reports carry it: its code, and the two numbers A and B that say more of it.
#[derive(Clone, Copy)]
pub struct Failure {
    pub code: u16,
    pub a: u16,
    pub b: u16,
}

impl From<Fault> for Failure {
    ghost from_gives = { λ fault r. r ≡ fault_failure fault };

    fn from(fault: Fault) -> Failure {
        let (code, a, b) = match fault {
            Fault::Length { octets, field } => (1, octets, field),
            Fault::CheckField { received, computed } => (2, received, computed),
            Fault::Header { first, second } => (0, first, second),
            Fault::DataHeader { first, second } => (6, first, second),
        };
        Failure { code, a, b }
    }
}

/// A well-formed telecommand packet; its application data are borrowed.
#[derive(Clone, Copy)]
pub struct Packet<'a> {
    pub apid: u16,
    pub sequence_count: u16,
    pub ack: u8,
    pub service: u8,
    pub subtype: u8,
    pub body: &'a [u8],
}

// B of a length fault is 0 where the length field did not come whole.
fn length_fault(octets: &[u8]) -> Fault
    ensures { result ≡ length_fault octets.now }
{
    let field = match octets {
        [_, _, _, _, hi, lo, ..] => u16::from_be_bytes([*hi, *lo]),
        _ => 0,
    };
    Fault::Length {
        octets: octets.len().min(65535) as u16,
        field,
    }
}

fn length_is_right(octets: &[u8], role: Role) -> bool
    ensures { result ≡ length_right role octets.now }
{
    let n = octets.len();
    if n < 12 {
        return false;
    }
    let field = u16::from_be_bytes([octets[4], octets[5]]);
    n <= role.most() && n % 2 == 0 && field as usize + 7 == n
}

/// The APID in octets 0 and 1, missing ones as zero.
pub fn apid_of(octets: &[u8]) -> u16
    ensures { result ≡ apid_of octets.now }
{
    let octet = |place: usize| octets.get(place).copied().unwrap_or(0);
    u16::from_be_bytes([octet(0), octet(1)]) % 2048
}

/// Reads a packet, or says the first thing that is wrong with it: length,
/// check field, header, data header, in this order.
pub fn read<'a>(octets: &'a [u8], role: Role) -> Result<Packet<'a>, Fault>
    ensures value { meant result ≡ read_of role octets.now }
    ensures short { IfOk result (λ p. length p.body.now + 12 ≤ most_of role) }
{
    if !length_is_right(octets, role) {
        return Err(length_fault(octets));
    }
    let [
        o0,
        o1,
        o2,
        o3,
        _,
        _,
        o6,
        service,
        subtype,
        o9,
        body @ ..,
        hi,
        lo,
    ] = octets
    else {
        return Err(length_fault(octets));
    };
    let received = u16::from_be_bytes([*hi, *lo]);
    let computed = check_field(&octets[..octets.len() - 2]);
    if received != computed {
        return Err(Fault::CheckField { received, computed });
    }
    let first = u16::from_be_bytes([*o0, *o1]);
    let second = u16::from_be_bytes([*o2, *o3]);
    let apid = apid_of(octets);
    if *o0 >> 3 != 3 || *o2 >> 6 != 3 || !role.admits(apid) {
        return Err(Fault::Header { first, second });
    }
    if *o6 >> 4 != 1 || *o9 != 0 {
        return Err(Fault::DataHeader {
            first: u16::from_be_bytes([*o6, *service]),
            second: u16::from_be_bytes([*subtype, *o9]),
        });
    }
    Ok(Packet {
        apid,
        sequence_count: second % 16384,
        ack: *o6 % 16,
        service: *service,
        subtype: *subtype,
        body,
    })
}
