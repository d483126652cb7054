ghost use Rattle.std.specs.Prelude.{◌≡◌, ℕ, ◌+◌, ◌<◌, ◌≤◌, ◌&&◌, List, map, reverse, length, All, is_ok, IsSome, OnOk, vec_len, vec_capacity, MatchResult, ◌==◌, nat_le};
ghost use Rattle.service.specs.State.{view, counted};
ghost use Rattle.service.specs.Reports.{area_after};
ghost use Rattle.service.specs.Requests.{too_short, accepting, accept_reports, accept_answer};
ghost use Rattle.history.specs.Log.{completes, call_in, call_of, entries_of};
ghost use Rattle.history.specs.Session.{machine_of, accept_reply, accept_held, held_slot, held_slots, held_at, can_complete, taken, complete_held, left_over, end_area, Steps};
ghost use Rattle.history.specs.Promise.{History};

use crate::call::{Call, Entry, Reply};
use service::answer::Refusal;
use service::service::Service;
use service::states::{Acceptance, Accepted, Asking, Received};

/// A service together with the requests that it has accepted: the one of each
/// acceptance asked for, where it is still accepted.
pub struct Session<'a> {
    service: Service,
    accepted: Vec<Option<Accepted<'a>>>,
}

// Asks for an acceptance: the request, where it was accepted, and the reply.
fn accept<'a>(
    service: &mut Service,
    octets: &'a [u8],
    area: &mut [u8],
) -> (Option<Accepted<'a>>, Reply)
    ensures held { held_slot result.0 ≡ accept_held (accept_answer (view service.old) octets.now (accepting octets.now area.old)) }
    ensures reply { result.1 ≡ accept_reply (accept_answer (view service.old) octets.now (accepting octets.now area.old)) }
    ensures area { area.new ≡ area_after (view service.old) (accept_reports octets.now (accepting octets.now area.old)) area.old }
    ensures state { view service.new ≡ counted (view service.old) (accept_reports octets.now (accepting octets.now area.old)) }
{
    match service.accept(Received::new(octets), area) {
        Ok(Acceptance { answer, accepted }) => (accepted, Reply::Answered(answer)),
        Err(_received) => (None, Refusal::AreaTooShort.into()),
    }
}

// Takes out the request of that acceptance, where it is still accepted and the area has room.
#[tactic(auto, using(crate::proofs::Moves::places))]
fn take<'a>(
    accepted: &mut [Option<Accepted<'a>>],
    number: usize,
    area: &[u8],
) -> Result<Accepted<'a>, Reply>
    ensures value { taken result ≡ can_complete (held_at number (held_slots accepted.old)) (too_short area.now) }
    ensures left { held_slots accepted.new ≡ complete_held number (held_at number (held_slots accepted.old)) area.now (held_slots accepted.old) }
{
    if number == 0 || number > accepted.len() {
        return Err(Reply::NoSuchRequest);
    }
    // by index: after `get_mut` of a slice a proof knows nothing of its elements
    let slot = &mut accepted[number - 1];
    let Some(request) = slot else {
        return Err(Reply::NoSuchRequest);
    };
    request.room(area)?;
    slot.take().ok_or(Reply::NoSuchRequest)
}

impl<'a> Session<'a> {
    fn complete(&mut self, number: usize, area: &mut [u8]) -> Reply
        ensures steps { Steps (machine_of self.old) (completes number) area.old (machine_of self.new) result area.new }
        ensures kept { (vec_len self.new.accepted ≡ vec_len self.old.accepted) × (vec_capacity self.new.accepted ≡ vec_capacity self.old.accepted) }
    {
        let request = match take(self.accepted.as_mut_slice(), number, area) {
            Ok(request) => request,
            Err(reply) => return reply,
        };
        match self.service.complete(request, area) {
            Ok(completed) => Reply::Answered(completed.answer()),
            // there was room; no `unwrap`, since the error holds an accepted request, which may
            // not be dropped
            Err(_request) => unreachable(),
        }
    }

    // Makes a call over an area.
    fn step(&mut self, call: Call<&'a [u8]>, area: &mut [u8]) -> Reply
        requires { vec_len self.old.accepted < vec_capacity self.old.accepted }
        ensures steps { Steps (machine_of self.old) (call_in call.entry) area.old (machine_of self.new) result area.new }
        ensures kept { (vec_len self.new.accepted ≤ vec_len self.old.accepted + 1) × (vec_capacity self.new.accepted ≡ vec_capacity self.old.accepted) }
    {
        match call {
            Call::Request(octets) => self.service.request(octets, area).into(),
            Call::Accept(octets) => {
                let (request, reply) = accept(&mut self.service, octets, area);
                self.accepted.push_reserved(request);
                reply
            }
            Call::Complete(number) => self.complete(number, area),
            Call::SetClock(time) => self.service.set_clock(time).into(),
        }
    }
}

impl Session<'_> {
    /// Completes what is still accepted, the latest first, each over the whole area, and
    /// answers how many requests that were.
    pub fn end(self, area: &mut [u8; 4096]) -> usize
        ensures answer { result ≡ left_over (held_slots self.entry.accepted.items) }
        ensures area { area.new ≡ end_area (view self.entry.service) (reverse (held_slots self.entry.accepted.items)) area.old }
    {
        let Session {
            mut service,
            mut accepted,
        } = self;
        let mut completed = 0;
        while let Some(slot) = accepted.pop() {
            if let Some(request) = slot {
                match service.complete(request, &mut area[..]) {
                    Ok(_) => completed += 1,
                    // there was room; no `unwrap`, since the error holds an accepted request,
                    // which may not be dropped
                    Err(_request) => unreachable(),
                }
            }
        }
        accepted.destroy_empty();
        completed
    }
}

/// Makes the call of every entry on a new service, each over the area of its entry, and notes
/// its reply there. `places` is to be empty and to have room for as many requests as there are
/// entries; otherwise it comes back, nothing is run and nothing changes.
pub fn run<'a>(
    places: Vec<Option<Accepted<'a>>>,
    entries: &mut [Entry<'a>],
) -> Result<Session<'a>, Vec<Option<Accepted<'a>>>>
    ensures test { is_ok result ≡ (vec_len places.entry == 0 && nat_le (length entries.old) (vec_capacity places.entry)) }
    ensures history { MatchResult result (λ s. History (reverse (entries_of entries.old entries.new)) (machine_of s)) (λ p. (p ≡ places.entry) × (entries.new ≡ entries.old)) }
    ensures made { OnOk result (All (λ e. IsSome e.reply) entries.new) }
    ensures calls { map call_of entries.new ≡ map call_of entries.old }
{
    if !places.is_empty() || places.capacity() < entries.len() {
        return Err(places);
    }
    let mut session = Session {
        service: Service::new(),
        accepted: places,
    };
    for entry in entries.iter_mut() {
        entry.reply = Some(session.step(entry.call, entry.area.as_mut_slice()));
    }
    Ok(session)
}
