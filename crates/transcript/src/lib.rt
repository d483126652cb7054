//! What is printed of a run of calls.

#![tactic(auto)]

ghost use Rattle.std.specs.Prelude.{length};
ghost use Rattle.std.specs.Iterator.{at_most};

use digits::hex::Hex;
use history::call::{Call, Entry, Reply};
use report::{Report, read_report};
use service::answer::{Answer, Outcome};
use std::fmt;
use words::{Asked, Said, Seconds, WhyRefused, WhyRejected};

/// All calls made for a script and what they were answered, shown as the lines to print.
#[derive(Clone, Copy)]
pub struct Transcript<'a, 'o> {
    accepts: &'a [&'o [u8]],
    scripted: &'a [Entry<'o>],
    completions: &'a [Entry<'o>],
}

impl<'a, 'o> Transcript<'a, 'o> {
    /// The transcript of the calls made: those of a script, with the octets of its acceptances,
    /// then the completions of these.
    pub fn new(
        accepts: &'a [&'o [u8]],
        scripted: &'a [Entry<'o>],
        completions: &'a [Entry<'o>],
    ) -> Transcript<'a, 'o> {
        Transcript {
            accepts,
            scripted,
            completions,
        }
    }

    // The octets of the request that a call is about.
    fn request(&self, call: Call<&'o [u8]>) -> &'o [u8] {
        match call {
            Call::Request(octets) | Call::Accept(octets) => octets,
            Call::Complete(number) => {
                let acceptance = self.accepts.get(number.wrapping_sub(1));
                acceptance.copied().unwrap_or(&[])
            }
            Call::SetClock(_) => &[],
        }
    }
}

impl fmt::Display for Transcript<'_, '_> {
    fn fmt<W: fmt::Write>(&self, f: &mut fmt::Formatter<W>) -> fmt::Result {
        // counted by hand: calls printed and acceptances asked for each have their own numbers
        let mut number: usize = 0;
        let mut acceptance: usize = 0;
        // not shown: completions of requests that had ended
        let completed = self
            .completions
            .iter()
            .filter(|entry| !matches!(entry.reply, Some(Reply::NoSuchRequest)));
        for entry in self.scripted.iter().chain(completed) {
            if matches!(entry.call, Call::Accept(_)) {
                acceptance = acceptance.saturating_add(1);
            }
            let Some(reply) = entry.reply else { continue };
            number = number.saturating_add(1);
            let call = Printed {
                number,
                call: entry.call,
                request: Asked(self.request(entry.call)),
                acceptance,
                reply,
                area: entry.area.as_slice(),
            };
            write!(f, "{call}")?;
        }
        f.write_str(
            "total inserted 0 pending 0 released 0 cancelled 0 passed over 0 undeliverable 0 waiting 0\n",
        )
    }
}

// A call, shown as its line and the lines of the reports that it wrote.
#[derive(Clone, Copy)]
struct Printed<'a, 'o> {
    number: usize,
    call: Call<&'o [u8]>,
    // the request that it is about, and how many acceptances were asked for until then
    request: Asked<'o>,
    acceptance: usize,
    reply: Reply,
    area: &'a [u8],
}

impl fmt::Display for Printed<'_, '_> {
    fn fmt<W: fmt::Write>(&self, f: &mut fmt::Formatter<W>) -> fmt::Result {
        write!(f, "{} ", self.number)?;
        match self.reply {
            Reply::Answered(answer) => self.write_answer(f, answer)?,
            Reply::ClockSet => self.write_clock(f)?,
            Reply::Refused(refusal) => {
                let why = WhyRefused(refusal);
                write!(
                    f,
                    "refused {} ; {why}; nothing has changed",
                    refusal.number()
                )?;
            }
            Reply::NoSuchRequest => self.write_missing(f)?,
        }
        f.write_str("\n")?;
        self.write_reports(f)
    }
}

impl Printed<'_, '_> {
    fn write_answer<W: fmt::Write>(
        &self,
        f: &mut fmt::Formatter<W>,
        answer: Answer,
    ) -> fmt::Result {
        match answer.outcome {
            Outcome::Accepted => f.write_str("accepted ; ")?,
            Outcome::Done(value) => write!(f, "done {value} ; ")?,
            Outcome::Rejected(rejection) => {
                let why = WhyRejected(rejection);
                return write!(f, "failed 1,2 code {} ; {why}", answer.outcome.value());
            }
        }
        let asked = self.request;
        match self.call {
            Call::Request(_) => write!(f, "{asked}"),
            Call::Accept(_) => {
                write!(
                    f,
                    "{asked}, still to be completed as request {}",
                    self.acceptance
                )
            }
            Call::Complete(number) => write!(f, "{asked}, completes request {number}"),
            Call::SetClock(_) => Ok(()),
        }
    }

    fn write_clock<W: fmt::Write>(&self, f: &mut fmt::Formatter<W>) -> fmt::Result {
        match self.call {
            Call::SetClock(time) => write!(f, "clock {time} ; clock at {}", Seconds(time)),
            _ => Ok(()),
        }
    }

    fn write_missing<W: fmt::Write>(&self, f: &mut fmt::Formatter<W>) -> fmt::Result {
        f.write_str("no such request")?;
        match self.call {
            Call::Complete(number) => write!(
                f,
                " ; request {number} was never accepted, or has been completed"
            ),
            _ => Ok(()),
        }
    }

    // The octets of the reports that the call wrote.
    fn written(&self) -> &[u8] {
        match self.reply {
            Reply::Answered(answer) => self.area.get(..answer.written).unwrap_or(&[]),
            _ => &[],
        }
    }

    fn write_reports<W: fmt::Write>(&self, f: &mut fmt::Formatter<W>) -> fmt::Result {
        for (report, octets) in Reports(self.written()) {
            let octets = Hex(octets);
            let said = Said(report);
            writeln!(
                f,
                "  {},{} {octets} ; {said}",
                report.service, report.subtype
            )?;
        }
        Ok(())
    }
}

// The reports that stand one directly after another, each with its octets.
#[derive(Drop)]
struct Reports<'a>(&'a [u8]);

impl<'a> Iterator for Reports<'a> {
    type Item = (Report<'a>, &'a [u8]);

    ghost remaining = { λ s. at_most (length s.0.now) };

    fn next(&mut self) -> Option<(Report<'a>, &'a [u8])> {
        let report = read_report(self.0)?;
        if report.size() > self.0.len() {
            return None;
        }
        let (octets, rest) = self.0.split_at(report.size());
        self.0 = rest;
        Some((report, octets))
    }
}
