//! Reports: what a service answers, laid down as octets and taken apart again.
//!
//! A report is a packet of 18 octets and its body: two fixed octets, two with the sequence count,
//! two with the packet's size, one fixed, service type, subtype, a zero octet, six of the clock,
//! the body, and the check field over all of them.

#![tactic(auto)]

ghost use Rattle.std.specs.Prelude.{◌≡◌, ℕ, ◌+◌, ◌≤◌, true, List, ◌++◌, length, if◌then◌else◌, Some};
ghost use Rattle.report.specs.Report.{over, next_count, head_of, report_of, content_of, service_of, subtype_of, fits, written_of, fields_of, kind_of, clock_in, is_head, is_checked, read_of, meant};

use check_field::check_field;

// Octet 0: a report, with the second header that begins at octet 6.
const ID_UPPER: u8 = 0x08;

// Octet 1: from application 16.
const ID_LOWER: u8 = 0x10;

// The two upper bits of octet 2: a packet that stands alone.
const UNSEGMENTED: u8 = 3;

// Octet 6: the version of the second header.
const VERSION: u8 = 0x10;

// Sequence counts have 14 bits.
const COUNTS: u16 = 16384;

// The octets of a report besides its body: 16 before it, and the check field.
const FRAME: usize = 18;

// The longest body: octets 4 and 5 hold 11 more than its length.
const MAX_BODY: usize = 65524;

/// What a report is about: its service type and subtype.
#[derive(Clone, Copy)]
pub enum ReportKind {
    /// A request was accepted: 1, 1.
    AcceptanceSuccess,
    /// A request was not accepted: 1, 2.
    AcceptanceFailure,
    /// A request was carried out: 1, 7.
    CompletionSuccess,
    /// The status that was asked for: 11, 19.
    Status,
    /// The answer to a connection test: 17, 2.
    Connection,
}

// All of them.
const KINDS: [ReportKind; 5] = [
    ReportKind::AcceptanceSuccess,
    ReportKind::AcceptanceFailure,
    ReportKind::CompletionSuccess,
    ReportKind::Status,
    ReportKind::Connection,
];

// Two numbers for each kind, so they are no discriminants.
impl ReportKind {
    /// The service type.
    pub fn service(self) -> u8
        ensures { result ≡ service_of self }
    {
        match self {
            ReportKind::AcceptanceSuccess => 1,
            ReportKind::AcceptanceFailure => 1,
            ReportKind::CompletionSuccess => 1,
            ReportKind::Status => 11,
            ReportKind::Connection => 17,
        }
    }

    /// The subtype.
    pub fn subtype(self) -> u8
        ensures { result ≡ subtype_of self }
    {
        match self {
            ReportKind::AcceptanceSuccess => 1,
            ReportKind::AcceptanceFailure => 2,
            ReportKind::CompletionSuccess => 7,
            ReportKind::Status => 19,
            ReportKind::Connection => 2,
        }
    }
}

/// What a report carries besides its body.
///
/// Of the sequence count 14 bits are written, and of the clock 48.
#[derive(Clone, Copy)]
pub struct Stamp {
    /// The sequence count.
    pub sequence_count: u16,
    /// The clock in 1/65536 s.
    pub clock: u64,
}

impl Stamp {
    /// The stamp of the next report at the same time.
    pub fn next(self) -> Stamp
        ensures { result ≡ record { sequence_count = next_count self.sequence_count; clock = self.clock } }
    {
        Stamp {
            sequence_count: self.sequence_count.wrapping_add(1) % COUNTS,
            clock: self.clock,
        }
    }
}

// Copies `part` to the place `at`, and answers where it ends. A slice and a place, and no type of
// both: it is called in one function alone, so such a type would be no plainer.
fn append(out: &mut [u8], at: usize, part: &[u8]) -> usize
    requires { at + length part.now ≤ length out.old }
    ensures end { result ≡ at + length part.now }
    ensures over { (w e : List ℕ) → length w ≡ at → out.old ≡ over w e → out.new ≡ over (w ++ part.now) e }
{
    let end = at + part.len();
    out[at..end].copy_from_slice(part);
    end
}

/// A report that is to be written.
#[derive(Clone, Copy)]
pub struct Draft<'a> {
    pub stamp: Stamp,
    pub kind: ReportKind,
    pub body: &'a [u8],
}

impl Draft<'_> {
    // The octets before the body; octets 4 and 5 hold the size of the packet, minus seven.
    fn head(&self) -> [u8; 16]
        requires { length self.now.body.now ≤ 65524 }
        ensures { result ≡ head_of (service_of self.now.kind) (subtype_of self.now.kind) self.now.stamp.sequence_count (11 + length self.now.body.now) self.now.stamp.clock }
    {
        let [c1, c0] = self.stamp.sequence_count.to_be_bytes();
        let [l1, l0] = (11 + self.body.len() as u16).to_be_bytes();
        let [_, _, t5, t4, t3, t2, t1, t0] = self.stamp.clock.to_be_bytes();
        let service = self.kind.service();
        let subtype = self.kind.subtype();
        // The flags stand above the 14 bits of the count.
        let flags = UNSEGMENTED * 64;
        [
            ID_UPPER,
            ID_LOWER,
            flags + c1 % 64,
            c0,
            l1,
            l0,
            VERSION,
            service,
            subtype,
            0,
            t5,
            t4,
            t3,
            t2,
            t1,
            t0,
        ]
    }

    // Lays the report over the start of `part`, where it is known to fit; answers where it ends.
    fn lay(&self, part: &mut [u8]) -> usize
        requires { (18 + length self.now.body.now ≤ length part.old) × (length self.now.body.now ≤ 65524) }
        ensures end { result ≡ 18 + length self.now.body.now }
        ensures part { part.new ≡ over (report_of self.now.stamp.sequence_count self.now.stamp.clock (content_of self.now.kind self.now.body.now)) part.old }
    {
        let head = self.head();
        let n = append(part, 0, &head);
        let n = append(part, n, self.body);
        let check = check_field(&part[0..n]);
        append(part, n, &check.to_be_bytes())
    }

    /// Writes the report at the start of `part`, leaves the rest of `part` as it was, and answers
    /// how many octets the report has.
    ///
    /// A report that does not go into `part`, or whose body is longer than 65524 octets, is not
    /// written: the answer is `None`, and nothing changes.
    pub fn write(&self, part: &mut [u8]) -> Option<usize>
        ensures answer { result ≡ written_of (length part.old) (length self.now.body.now) }
        ensures part { part.new ≡ (if fits (length part.old) (length self.now.body.now) then over (report_of self.now.stamp.sequence_count self.now.stamp.clock (content_of self.now.kind self.now.body.now)) part.old else part.old) }
        ensures read_back { fits (length part.old) (length self.now.body.now) ≡ true → read_of part.new ≡ Some (fields_of self.now.stamp.sequence_count self.now.stamp.clock (content_of self.now.kind self.now.body.now)) }
    {
        if self.body.len() > MAX_BODY {
            return None;
        }
        if part.len() < FRAME + self.body.len() {
            return None;
        }
        Some(self.lay(part))
    }
}

/// A report taken apart.
#[derive(Clone, Copy)]
pub struct Report<'a> {
    /// The service type.
    pub service: u8,
    /// The subtype.
    pub subtype: u8,
    /// The sequence count, of 14 bits, and the clock, of 48.
    pub stamp: Stamp,
    /// What stands between the clock and the check field.
    pub body: &'a [u8],
}

impl Report<'_> {
    /// The number of octets of the whole report.
    pub fn size(&self) -> usize
        ensures { result ≡ 18 + length self.now.body.now }
    {
        FRAME + self.body.len()
    }

    /// What the report is about, if a service here gives such reports.
    pub fn kind(&self) -> Option<ReportKind>
        ensures { result ≡ kind_of self.now.service self.now.subtype }
    {
        KINDS.iter().copied().find(|kind| kind.service() == self.service
            && kind.subtype() == self.subtype)
    }
}

// Whether the octets that are the same in every report, and its flag bits, are right. As constants
// in the reader's pattern they were tried: the check then lacks what a failing pattern says of each.
fn is_head(octets: &[u8]) -> bool
    requires { 10 ≤ length octets.now }
    ensures { result ≡ is_head octets.now }
{
    octets[0] == ID_UPPER
        && octets[1] == ID_LOWER
        && octets[2] >> 6 == UNSEGMENTED
        && octets[6] == VERSION
        && octets[9] == 0
}

// Whether the last two of the first `size` octets are the check field of those before them.
fn is_checked(octets: &[u8], size: usize) -> bool
    requires { (2 ≤ size) × (size ≤ length octets.now) }
    ensures { result ≡ is_checked size octets.now }
{
    let [upper, lower] = check_field(&octets[..size - 2]).to_be_bytes();
    octets[size - 2] == upper && octets[size - 1] == lower
}

// The clock in octets 10 to 15.
fn clock_in(octets: &[u8]) -> u64
    requires { 16 ≤ length octets.now }
    ensures { result ≡ clock_in octets.now }
{
    u64::from_be_bytes([
        0, 0, octets[10], octets[11], octets[12], octets[13], octets[14], octets[15],
    ])
}

/// Takes the report at the start of `octets` apart.
///
/// The answer is `None` where no whole report with its right check field is there.
pub fn read_report<'a>(octets: &'a [u8]) -> Option<Report<'a>>
    ensures { meant result ≡ read_of octets.now }
{
    let [_, _, c1, c0, l1, l0, _, service, subtype, _, rest @ ..] = octets else {
        return None;
    };
    let size = u16::from_be_bytes([*l1, *l0]) as usize + 7;
    if !is_head(octets) || size < FRAME || size > octets.len() || !is_checked(octets, size) {
        return None;
    }
    Some(Report {
        service: *service,
        subtype: *subtype,
        stamp: Stamp {
            sequence_count: u16::from_be_bytes([*c1, *c0]) % COUNTS,
            clock: clock_in(octets),
        },
        // Between the six octets of the clock and the check field.
        body: &rest[6..size - 12],
    })
}

#[cfg(test)]
mod tests {
    use super::*;

    const STAMP: Stamp = Stamp {
        sequence_count: 0x1234,
        clock: 0x0102_0304_0506,
    };

    fn draft() -> Draft<'static> {
        Draft {
            stamp: STAMP,
            kind: ReportKind::Status,
            body: &[0xab, 0xcd],
        }
    }

    #[test]
    fn octets(rt: HostRuntime) {
        let mut area = [0xff; 22];
        assert_eq!(rt; draft().write(&mut area), Some(20));
        assert_eq!(rt;
            area,
            [
                0x08, 0x10, 0xd2, 0x34, 0x00, 0x0d, 0x10, 0x0b, 0x13, 0x00, 0x01, 0x02, 0x03, 0x04,
                0x05, 0x06, 0xab, 0xcd, 0x21, 0x6c, 0xff, 0xff,
            ]
        );
    }

    #[test]
    fn read_back(rt: HostRuntime) {
        let mut area = [0xff; 22];
        assert_eq!(rt; draft().write(&mut area), Some(20));
        match read_report(&area) {
            None => assert!(rt; false),
            Some(report) => {
                assert_eq!(rt; report.service, 11);
                assert_eq!(rt; report.subtype, 19);
                assert_eq!(rt; report.stamp.sequence_count, 0x1234);
                assert_eq!(rt; report.stamp.clock, 0x0102_0304_0506);
                assert_eq!(rt; report.size(), 20);
                assert_eq!(rt; report.body.len(), 2);
            }
        }
        // One bit of the body is changed.
        area[17] = 0xcc;
        assert!(rt; read_report(&area).is_none());
    }

    #[test]
    fn short_area(rt: HostRuntime) {
        let mut area = [0xff; 19];
        assert_eq!(rt; draft().write(&mut area), None);
        assert_eq!(rt; area, [0xff; 19]);
    }
}
