ghost use Rattle.std.specs.Prelude.{◌≡◌, ◌+◌, ◌≤◌, [], ◌∷◌, length};
ghost use Rattle.report.specs.Report.{content_of};
ghost use Rattle.request.specs.Request.{request_of, asked_in, names_in, asks_status};
ghost use Rattle.service.specs.State.{view, initial, counted, carried, switched_by};
ghost use Rattle.service.specs.Reports.{success_of, rejection_of, data_of, area_after, Gives};
ghost use Rattle.service.specs.Requests.{held_in, accepting, accept_reports, finish_reports, whole_reports, whole_state, judged, verdict_in, accept_answer, whole_answer, finish_answer, finish_area, finish_state, meant_acceptance, meant_completion};
ghost use Rattle.service.specs.Clock.{clock_answer, clock_after};

use crate::answer::{Answer, Outcome, Refusal};
use crate::body::{failure_body, status_body};
use crate::states::{Acceptance, Accepted, Asking, Completed, Received};
use packet::Failure;
use report::{Draft, ReportKind, Stamp};
use request::read::{name_of, read_request};
use request::rejection::Rejection;
use request::request::{Names, Request};
use status::Status;

/// The service behind a bus: clock, reports given, status.
#[derive(Drop)]
pub struct Service {
    // of the next report: its sequence count, and the clock
    pub(crate) stamp: Stamp,
    pub(crate) status: Status,
}

impl Service {
    /// A new service: the clock at 0, no report given, everything disabled.
    pub fn new() -> Service
        ensures { view result ≡ initial }
    {
        Service {
            stamp: Stamp {
                sequence_count: 0,
                clock: 0,
            },
            status: Status::new(),
        }
    }

    /// Sets the clock, in 1/65536 second.
    pub fn set_clock(&mut self, time: u64) -> Result<(), Refusal>
        ensures answer { result ≡ clock_answer (view self.old).clock time }
        ensures state { view self.new ≡ clock_after (view self.old) time }
    {
        if time >= 1 << 48 {
            return Err(Refusal::TimeBeyondRange);
        }
        if time < self.stamp.clock {
            return Err(Refusal::ClockBackward);
        }
        self.stamp.clock = time;
        Ok(())
    }

    // One report at the start of the part. Each writer gets the area from the current place on, as
    // a slice, so that the part has room stands in the contract of each and not in a type.
    fn give(&mut self, part: &mut [u8], kind: ReportKind, body: &[u8]) -> usize
        requires { (length body.now ≤ 962) × (980 ≤ length part.old) }
        ensures short { result ≡ 18 + length body.now }
        ensures gives { Gives (view self.old) (view self.old) (content_of kind body.now ∷ []) part.old part.new (view self.new) result }
    {
        let stamp = self.stamp;
        self.stamp = stamp.next();
        Draft { stamp, kind, body }.write(part).unwrap()
    }

    // The report of a success, where it is asked for: it carries the request's name alone.
    fn give_success(
        &mut self,
        part: &mut [u8],
        asked: bool,
        kind: ReportKind,
        name: [u8; 4],
    ) -> usize
        requires { 980 ≤ length part.old }
        ensures short { result ≤ 22 }
        ensures gives { Gives (view self.old) (view self.old) (success_of kind asked name) part.old part.new (view self.new) result }
    {
        if asked {
            self.give(part, kind, &name)
        } else {
            0
        }
    }

    fn give_rejection(&mut self, part: &mut [u8], name: [u8; 4], rejection: Rejection) -> usize
        requires { 980 ≤ length part.old }
        ensures short { result ≡ 28 }
        ensures gives { Gives (view self.old) (view self.old) (rejection_of rejection name) part.old part.new (view self.new) result }
    {
        let body = failure_body(name, Failure::from(rejection));
        self.give(part, ReportKind::AcceptanceFailure, &body)
    }

    fn give_status(&mut self, part: &mut [u8], names: Names) -> usize
        requires { 980 ≤ length part.old }
        ensures short { result ≤ 254 }
        ensures gives { Gives (view self.old) (view self.old) (data_of (view self.old).subschedules (view self.old).apids (asks_status (names_in names.entry))) part.old part.new (view self.new) result }
    {
        // an accepted request never names more
        if names.subschedules.len() / 2 + names.apids.len() / 2 > 117 {
            return 0;
        }
        let body = status_body(&self.status, names);
        self.give(part, ReportKind::Status, body.as_slice())
    }

    fn switch(&mut self, names: Names, on: bool)
        ensures { view self.new ≡ switched_by (view self.old) (names_in names.entry) on }
    {
        self.status.switch(names.subschedules, names.apids, on);
    }

    // Does what a request asks, and writes the reports with what it asked to know.
    fn carry_out(&mut self, part: &mut [u8], request: Request) -> usize
        requires { 980 ≤ length part.old }
        ensures short { result ≤ 254 }
        ensures gives { Gives (view self.old) (carried (view self.old) (asked_in request.entry)) (data_of (view self.old).subschedules (view self.old).apids (asked_in request.entry)) part.old part.new (view self.new) result }
    {
        match request {
            Request::Enable(names) => {
                self.switch(names, true);
                0
            }
            Request::Disable(names) => {
                self.switch(names, false);
                0
            }
            Request::Status(names) => self.give_status(part, names),
            Request::ConnectionTest => self.give(part, ReportKind::Connection, &[]),
        }
    }

    // Completes a request at the start of the part.
    fn finish(&mut self, part: &mut [u8], request: Accepted) -> usize
        requires { 4000 ≤ length part.old }
        ensures short { result ≤ 276 }
        ensures gives { Gives (view self.old) (carried (view self.old) (held_in request.entry).asked) (finish_reports (view self.old).subschedules (view self.old).apids (held_in request.entry)) part.old part.new (view self.new) result }
    {
        let Accepted { name, telecommand } = request;
        let at = self.carry_out(part, telecommand.request);
        let n = self.give_success(
            &mut part[at..],
            telecommand.ack.completion,
            ReportKind::CompletionSuccess,
            name,
        );
        at + n
    }

    // Accepts octets or rejects them, over an area that has room.
    fn receive<'a>(&mut self, octets: &'a [u8], area: &mut [u8]) -> Acceptance<'a>
        requires { 4096 ≤ length area.old }
        ensures short { result.answer.written ≤ 28 }
        ensures answer { verdict_in result ≡ accept_answer (view self.old) octets.now (judged octets.now (request_of octets.now)) }
        ensures area { area.new ≡ area_after (view self.old) (accept_reports octets.now (judged octets.now (request_of octets.now))) area.old }
        ensures state { view self.new ≡ counted (view self.old) (accept_reports octets.now (judged octets.now (request_of octets.now))) }
    {
        let name = name_of(octets);
        match read_request(octets) {
            Ok(telecommand) => {
                let asked = telecommand.ack.acceptance;
                let kind = ReportKind::AcceptanceSuccess;
                let written = self.give_success(area, asked, kind, name);
                let outcome = Outcome::Accepted;
                Acceptance {
                    answer: Answer { outcome, written },
                    accepted: Some(Accepted { name, telecommand }),
                }
            }
            Err(rejection) => {
                let written = self.give_rejection(area, name, rejection);
                let outcome = Outcome::Rejected(rejection);
                Acceptance {
                    answer: Answer { outcome, written },
                    accepted: None,
                }
            }
        }
    }

    /// Accepts a received request, or rejects it; with too short an area it stays received.
    pub fn accept<'a>(
        &mut self,
        request: Received<'a>,
        area: &mut [u8],
    ) -> Result<Acceptance<'a>, Received<'a>>
        ensures answer { meant_acceptance result ≡ accept_answer (view self.old) request.entry.octets.now (accepting request.entry.octets.now area.old) }
        ensures area { area.new ≡ area_after (view self.old) (accept_reports request.entry.octets.now (accepting request.entry.octets.now area.old)) area.old }
        ensures state { view self.new ≡ counted (view self.old) (accept_reports request.entry.octets.now (accepting request.entry.octets.now area.old)) }
    {
        if request.room(area).is_err() {
            return Err(request);
        }
        let Received { octets } = request;
        Ok(self.receive(octets, area))
    }

    /// Completes an accepted request; with too short an area it stays accepted.
    pub fn complete<'a>(
        &mut self,
        request: Accepted<'a>,
        area: &mut [u8],
    ) -> Result<Completed, Accepted<'a>>
        ensures answer { meant_completion result ≡ finish_answer (view self.old) (held_in request.entry) area.old }
        ensures area { area.new ≡ finish_area (view self.old) (held_in request.entry) area.old }
        ensures state { view self.new ≡ finish_state (view self.old) (held_in request.entry) area.old }
    {
        if request.room(area).is_err() {
            return Err(request);
        }
        let written = self.finish(area, request);
        let outcome = Outcome::Done(0);
        let answer = Answer { outcome, written };
        Ok(Completed { answer })
    }

    /// A whole request: acceptance and completion in one call, over one area.
    pub fn request(&mut self, octets: &[u8], area: &mut [u8]) -> Result<Answer, Refusal>
        ensures answer { result ≡ whole_answer (view self.old) octets.now (accepting octets.now area.old) }
        ensures area { area.new ≡ area_after (view self.old) (whole_reports (view self.old).subschedules (view self.old).apids octets.now (accepting octets.now area.old)) area.old }
        ensures state { view self.new ≡ counted (whole_state (view self.old) (accepting octets.now area.old)) (whole_reports (view self.old).subschedules (view self.old).apids octets.now (accepting octets.now area.old)) }
    {
        Received::new(octets).room(area)?;
        let Acceptance { answer, accepted } = self.receive(octets, area);
        match accepted {
            None => Ok(answer),
            Some(request) => {
                let at = answer.written;
                let n = self.finish(&mut area[at..], request);
                let outcome = Outcome::Done(0);
                let written = at + n;
                Ok(Answer { outcome, written })
            }
        }
    }
}
