/// The subschedules and APIDs that a request names, as octets of the packet:
/// each number has two, most significant first.
// As octets, and no slices of pairs, and with no bound on how many: either would ask more of
// whoever makes one. That a decoded request names at most 117 stands in the clauses of the reader.
#[derive(Clone, Copy)]
pub struct Names<'a> {
    pub subschedules: &'a [u8],
    pub apids: &'a [u8],
}

/// Which pending commands a cancel request ends.
#[derive(Clone, Copy)]
pub struct Cancel {
    pub subschedule: u16,
    pub tag: u64,
    pub apid: u16,
    pub first_count: u16,
    pub number: u16,
}

/// A decoded request; what it names is borrowed from the received octets.
#[derive(Clone, Copy)]
pub enum Request<'a> {
    Enable(Names<'a>),
    Disable(Names<'a>),
    Status(Names<'a>),
    ConnectionTest,
}

/// Which reports a request asks for.
#[derive(Clone, Copy)]
pub struct Ack {
    pub acceptance: bool,
    pub completion: bool,
}

/// A request that can be accepted.
#[derive(Clone, Copy)]
pub struct Telecommand<'a> {
    pub ack: Ack,
    pub request: Request<'a>,
}
