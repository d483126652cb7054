ghost use Rattle.std.specs.Prelude.{◌≡◌};
ghost use Rattle.service.specs.Requests.{room_answer};

use crate::answer::{Answer, Refusal};
use request::request::Telecommand;

/// The fewest octets that a report area may have.
pub const LEAST_AREA: usize = 4096;

/// A request as it came: nothing has been asked of it yet.
#[derive(Drop)]
pub struct Received<'a> {
    pub(crate) octets: &'a [u8],
}

/// An accepted request. It is not `Drop`: it has to be completed.
pub struct Accepted<'a> {
    pub(crate) name: [u8; 4],
    pub(crate) telecommand: Telecommand<'a>,
}

/// A completed request, with its answer.
#[derive(Drop)]
pub struct Completed {
    pub(crate) answer: Answer,
}

/// What became of a received request: the answer, and the request where it was accepted.
pub struct Acceptance<'a> {
    pub answer: Answer,
    pub accepted: Option<Accepted<'a>>,
}

/// A request in a state from which a call moves it on, over an area for its reports.
pub trait Asking {
    /// Whether an area has room for this request's reports; the request stays as it is.
    fn room(&self, area: &[u8]) -> Result<(), Refusal>
        ensures { result ≡ room_answer area.now }
    {
        if area.len() < LEAST_AREA {
            return Err(Refusal::AreaTooShort);
        }
        Ok(())
    }
}

impl Asking for Received<'_> {}

impl Asking for Accepted<'_> {}

impl<'a> Received<'a> {
    /// Receives any octets.
    pub fn new(octets: &'a [u8]) -> Received<'a>
        ensures { result.octets.now ≡ octets.now }
    {
        Received { octets }
    }
}

impl Completed {
    /// The answer to the request.
    pub fn answer(&self) -> Answer
        ensures { result ≡ self.now.answer }
    {
        self.answer
    }
}
