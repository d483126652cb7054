ghost use Rattle.std.specs.Prelude.{◌≡◌};
ghost use Rattle.request.specs.Rejection.{failure_of};
ghost use Rattle.request.specs.declared.rejection.Rejection.TheVariants.{Packet};

use packet::{Failure, Fault};

/// Why a request is not accepted.
#[derive(Clone, Copy)]
pub enum Rejection {
    /// The packet is damaged or not for this service.
    Packet(Fault),
    /// No request has this type.
    UnknownType { service: u8, subtype: u8 },
    /// No request of this type has this subtype.
    UnknownSubtype { service: u8, subtype: u8 },
    /// The data have not the length that their layout requires, but this one.
    DataLength { octets: u16 },
    /// No subschedule and no APID is named.
    NothingNamed,
    /// A field is out of its range, by its first octet and its value.
    Field { octet: u16, value: u16 },
}

// The first octet of the data, by which a report names them.
const DATA: u16 = 10;

impl From<Fault> for Rejection {
    ghost from_gives = { λ fault r. r ≡ Packet fault };

    fn from(fault: Fault) -> Rejection {
        Rejection::Packet(fault)
    }
}

impl From<Rejection> for Failure {
    ghost from_gives = { λ rejection r. r ≡ failure_of rejection };

    fn from(rejection: Rejection) -> Failure {
        let (code, a, b) = match rejection {
            Rejection::Packet(fault) => return Failure::from(fault),
            Rejection::UnknownType { service, subtype } => (3, service.into(), subtype.into()),
            Rejection::UnknownSubtype { service, subtype } => (4, service.into(), subtype.into()),
            Rejection::DataLength { octets } => (5, DATA, octets),
            Rejection::NothingNamed => (5, DATA, 0),
            Rejection::Field { octet, value } => (5, octet, value),
        };
        Failure { code, a, b }
    }
}
