ghost use Rattle.std.specs.Prelude.{◌≡◌};
ghost use Rattle.service.specs.Requests.{refusal_number, value_of};

use packet::Failure;
use request::rejection::Rejection;

/// How a request fared.
#[derive(Clone, Copy)]
pub enum Outcome {
    /// It was accepted and waits for its completion.
    Accepted,
    /// It was carried out; the value is what its kind answers.
    Done(u32),
    /// It was not accepted, for this reason.
    Rejected(Rejection),
}

impl Outcome {
    /// The value that goes with the outcome: what was answered, or the failure's code.
    pub fn value(self) -> u32
        ensures { result ≡ value_of self }
    {
        match self {
            Outcome::Accepted => 0,
            Outcome::Done(value) => value,
            Outcome::Rejected(rejection) => u32::from(Failure::from(rejection).code),
        }
    }
}

/// The answer to a request: its outcome, and how many octets of reports stand in the area.
// A number, and no slice of them: that would keep the caller's area lent.
#[derive(Clone, Copy)]
pub struct Answer {
    pub outcome: Outcome,
    pub written: usize,
}

/// Why a call was refused; a refused call changes nothing.
#[derive(Clone, Copy)]
pub enum Refusal {
    /// The report area has fewer than 4,096 octets.
    AreaTooShort = 101,
    /// The time does not fit 48 bits.
    TimeBeyondRange = 111,
    /// The time is before the clock.
    ClockBackward = 112,
}

impl Refusal {
    /// The number of this refusal.
    pub fn number(self) -> u16
        ensures { result ≡ refusal_number self }
    {
        self as u16
    }
}
