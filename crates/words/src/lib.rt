//! Words for people: what requests, reports, codes and times mean.

#![tactic(auto)]

use packet::{Failure, Fault};
use report::{Report, ReportKind, Stamp};
use request::read::read_request;
use request::rejection::Rejection;
use request::request::Request;
use service::answer::Refusal;
use std::fmt;

/// A time in 1/65536 second, shown in seconds.
#[derive(Clone, Copy)]
pub struct Seconds(pub u64);

impl fmt::Display for Seconds {
    fn fmt<W: fmt::Write>(&self, f: &mut fmt::Formatter<W>) -> fmt::Result {
        let whole = self.0 / 65536;
        let millionths = self.0 % 65536 * 1_000_000 / 65536;
        write!(f, "{whole}.{millionths:06} s")
    }
}

// The number in the two octets from `place` on; octets that are not there are zero.
fn word_at(octets: &[u8], place: usize) -> u16 {
    match octets.get(place..) {
        Some([upper, lower, ..]) => u16::from_be_bytes([*upper, *lower]),
        _ => 0,
    }
}

// A row of 16-bit numbers, shown with what they number.
#[derive(Clone, Copy)]
struct Numbers<'a> {
    what: &'a str,
    octets: &'a [u8],
}

impl fmt::Display for Numbers<'_> {
    fn fmt<W: fmt::Write>(&self, f: &mut fmt::Formatter<W>) -> fmt::Result {
        let (numbers, _) = self.octets.as_chunks::<2>();
        let plural = if numbers.len() == 1 { "" } else { "s" };
        write!(f, "{} {}{plural}", numbers.len(), self.what)?;
        for (i, number) in numbers.iter().enumerate() {
            let before = if i == 0 { " (" } else { ", " };
            write!(f, "{before}{}", u16::from_be_bytes(*number))?;
        }
        if numbers.is_empty() {
            Ok(())
        } else {
            f.write_str(")")
        }
    }
}

/// The octets of a request, shown as what it asks for.
#[derive(Clone, Copy)]
pub struct Asked<'a>(pub &'a [u8]);

impl fmt::Display for Asked<'_> {
    fn fmt<W: fmt::Write>(&self, f: &mut fmt::Formatter<W>) -> fmt::Result {
        let Ok(telecommand) = read_request(self.0) else {
            return f.write_str("no request");
        };
        let (verb, names) = match telecommand.request {
            Request::Enable(names) => ("enable", names),
            Request::Disable(names) => ("disable", names),
            Request::Status(names) => ("status of", names),
            Request::ConnectionTest => return f.write_str("connection test"),
        };
        let subschedules = Numbers {
            what: "subschedule",
            octets: names.subschedules,
        };
        let apids = Numbers {
            what: "APID",
            octets: names.apids,
        };
        write!(f, "{verb} {subschedules}, {apids}")
    }
}

/// A rejection, shown as what is wrong with the request.
#[derive(Clone, Copy)]
pub struct WhyRejected(pub Rejection);

impl fmt::Display for WhyRejected {
    fn fmt<W: fmt::Write>(&self, f: &mut fmt::Formatter<W>) -> fmt::Result {
        match self.0 {
            Rejection::Packet(fault) => write_fault(f, fault),
            Rejection::UnknownType { service, subtype } => {
                write!(f, "no request has type {service} (subtype {subtype})")
            }
            Rejection::UnknownSubtype { service, subtype } => {
                write!(f, "no request of type {service} has subtype {subtype}")
            }
            // a request without data names nothing either
            Rejection::NothingNamed | Rejection::DataLength { octets: 0 } => {
                f.write_str("wrong data: no subschedule and no APID is named")
            }
            Rejection::DataLength { octets } => write!(
                f,
                "wrong data: {octets} octets of data are not as many as this request has"
            ),
            Rejection::Field { octet, value } => write!(
                f,
                "wrong data: the number at octet {octet} is {value}, which is out of range"
            ),
        }
    }
}

fn write_fault<W: fmt::Write>(f: &mut fmt::Formatter<W>, fault: Fault) -> fmt::Result {
    match fault {
        Fault::Header { first, second } => write!(
            f,
            "not for this service: octets 0 to 3 are {first:04X} {second:04X}, wanted are 1810 and C000 or more"
        ),
        Fault::Length { octets, field } => write!(
            f,
            "wrong length: {octets} octets came, and octets 4 and 5 say {field}; wanted are an even number from 12 to 248, and 7 less in octets 4 and 5"
        ),
        Fault::CheckField { received, computed } => write!(
            f,
            "damaged: the check field is {received:04X}, and {computed:04X} is right for the other octets"
        ),
        Fault::DataHeader { first, second } => write!(
            f,
            "wrong data header: octets 6 to 9 are {first:04X} {second:04X}, wanted are 1 in the upper half of octet 6 and 00 in octet 9"
        ),
    }
}

/// A refusal, shown as why the call was refused.
#[derive(Clone, Copy)]
pub struct WhyRefused(pub Refusal);

impl fmt::Display for WhyRefused {
    fn fmt<W: fmt::Write>(&self, f: &mut fmt::Formatter<W>) -> fmt::Result {
        f.write_str(match self.0 {
            Refusal::AreaTooShort => "the area has fewer than 4096 octets",
            Refusal::TimeBeyondRange => "the time does not fit 48 bits",
            Refusal::ClockBackward => "the time is before the clock, which cannot go back",
        })
    }
}

// The upper bit of a word of a status report, set where the number in the others is enabled.
const ENABLED: u16 = 1 << 15;

fn write_status<W: fmt::Write>(f: &mut fmt::Formatter<W>, body: &[u8]) -> fmt::Result {
    f.write_str("status report")?;
    let [subschedules, _, rest @ ..] = body else {
        return Ok(());
    };
    let (words, _) = rest.as_chunks::<2>();
    for (i, word) in words.iter().enumerate() {
        let before = if i == 0 { ":" } else { "," };
        let what = if i < *subschedules as usize {
            "subschedule"
        } else {
            "APID"
        };
        let word = u16::from_be_bytes(*word);
        let number = word % ENABLED;
        let status = if word >= ENABLED {
            "enabled"
        } else {
            "disabled"
        };
        write!(f, "{before} {what} {number} {status}")?;
    }
    Ok(())
}

// The failure that the body of a failure report carries.
fn failure_in(body: &[u8]) -> Failure {
    Failure {
        code: word_at(body, 4),
        a: word_at(body, 6),
        b: word_at(body, 8),
    }
}

/// A report, shown as what it says.
#[derive(Clone, Copy)]
pub struct Said<'a>(pub Report<'a>);

impl fmt::Display for Said<'_> {
    fn fmt<W: fmt::Write>(&self, f: &mut fmt::Formatter<W>) -> fmt::Result {
        let report = self.0;
        match report.kind() {
            Some(ReportKind::AcceptanceSuccess) => f.write_str("acceptance success")?,
            Some(ReportKind::AcceptanceFailure) => {
                let Failure { code, a, b } = failure_in(report.body);
                write!(f, "acceptance failure, code {code}, A {a}, B {b}")?;
            }
            Some(ReportKind::CompletionSuccess) => f.write_str("completion success")?,
            Some(ReportKind::Status) => write_status(f, report.body)?,
            Some(ReportKind::Connection) => f.write_str("connection test report")?,
            None => write!(
                f,
                "report of type {}, subtype {}",
                report.service, report.subtype
            )?,
        }
        let Stamp {
            sequence_count,
            clock,
        } = report.stamp;
        let time = Seconds(clock);
        write!(f, "; sequence count {sequence_count}, clock {time}")
    }
}
