ghost use Rattle.std.specs.Prelude.{◌≡◌};
ghost use Rattle.history.specs.Log.{call_in, call_with_vec};
ghost use Rattle.history.specs.Session.{whole_reply, clock_reply};
ghost use Rattle.history.specs.declared.call.Reply.TheVariants.{Refused};

use service::answer::{Answer, Refusal};

/// One call on the service. `O` holds the octets that it brings.
#[derive(Clone, Copy, Drop)]
pub enum Call<O> {
    /// A whole request: acceptance and completion.
    Request(O),
    /// Acceptance alone.
    Accept(O),
    /// Completion of the request of the acceptance of this number, counted from 1
    /// over all acceptances asked for.
    Complete(usize),
    /// Setting the clock, in 1/65536 second.
    SetClock(u64),
}

impl Call<Vec<u8>> {
    /// The same call, with its octets lent.
    pub fn as_deref(&self) -> Call<&[u8]>
        ensures { call_in result ≡ call_with_vec self.now }
    {
        match self {
            Call::Request(octets) => Call::Request(octets.as_slice()),
            Call::Accept(octets) => Call::Accept(octets.as_slice()),
            Call::Complete(number) => Call::Complete(*number),
            Call::SetClock(time) => Call::SetClock(*time),
        }
    }
}

/// What a call was answered.
#[derive(Clone, Copy)]
pub enum Reply {
    /// A request fared so.
    Answered(Answer),
    /// The clock was set.
    ClockSet,
    /// The call was refused, and changed nothing.
    Refused(Refusal),
    /// No acceptance of that number is there, or it was refused, or has been completed.
    NoSuchRequest,
}

impl From<Refusal> for Reply {
    ghost from_gives = { λ refusal reply. reply ≡ Refused refusal };

    fn from(refusal: Refusal) -> Reply {
        Reply::Refused(refusal)
    }
}

impl From<Result<Answer, Refusal>> for Reply {
    ghost from_gives = { λ answer reply. reply ≡ whole_reply answer };

    fn from(answer: Result<Answer, Refusal>) -> Reply {
        match answer {
            Ok(answer) => Reply::Answered(answer),
            Err(refusal) => refusal.into(),
        }
    }
}

impl From<Result<(), Refusal>> for Reply {
    ghost from_gives = { λ set reply. reply ≡ clock_reply set };

    fn from(set: Result<(), Refusal>) -> Reply {
        match set {
            Ok(()) => Reply::ClockSet,
            Err(refusal) => refusal.into(),
        }
    }
}

/// A call of a run, with the report area that it brings, and its reply once it is made.
#[derive(Drop)]
pub struct Entry<'a> {
    pub call: Call<&'a [u8]>,
    pub area: Vec<u8>,
    pub reply: Option<Reply>,
}
