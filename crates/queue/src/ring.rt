//! A slice of octets as a ring: what passes its end goes on at its front.
ghost use Rattle.std.specs.Prelude.{◌≡◌, ◌+◌, ◌++◌, length, take, drop, ◌≤◌};
ghost use Rattle.destination.specs.Destination.{laid};
ghost use Rattle.queue.specs.Ring.{round, ringed, ahead};

use std::marker::Model;

/// The octets that are lent, read from `start` on and round.
#[derive(Drop)]
pub struct Ring<'a> {
    octets: &'a mut [u8],
    start: usize,
}

impl<'a> Model for Ring<'a> {
    ghost use Rattle.std.specs.Prelude.{◌≤◌, length};
    ghost use Rattle.queue.specs.Ring.{Memory};

    ghost Value = { Memory };

    ghost view = { λ r. record { octets = r.octets.now; start = r.start } };

    ghost invariant = { λ r. r.start ≤ length r.octets.now };
}

/// The place `n` octets on from `at`, in a ring of `size` octets.
fn onward(size: usize, at: usize, n: usize) -> usize
    requires { (at ≤ size) × (n ≤ size) }
    ensures place { result ≡ ahead size at n }
    ensures within { result ≤ size }
{
    let to_end = size - at;
    if n < to_end { at + n } else { n - to_end }
}

/// Writes the octets from `at` on. A function of its own, since after two writes through the field
/// of a `Ring` the check knows no more than the length of what it lends.
fn write_round(memory: &mut [u8], at: usize, octets: &[u8])
    requires { (at ≤ length memory.old) × (length octets.now ≤ length memory.old) }
    ensures { round memory.new at ≡ laid octets.now (round memory.old at) }
{
    let n = octets.len();
    let to_end = memory.len() - at;
    if n <= to_end {
        memory[at..at + n].copy_from_slice(octets);
    } else {
        memory[at..].copy_from_slice(&octets[..to_end]);
        memory[..n - to_end].copy_from_slice(&octets[to_end..]);
    }
}

impl<'a> Ring<'a> {
    pub(crate) fn new(octets: &'a mut [u8]) -> Ring<'a>
        ensures { result ≡ record { octets = octets.old; start = 0 } }
    {
        Ring { octets, start: 0 }
    }

    pub(crate) fn len(&self) -> usize
        ensures { result ≡ length self.now.octets }
    {
        self.octets.len()
    }

    /// Moves the start `n` octets on.
    pub(crate) fn advance(&mut self, n: usize)
        requires { n ≤ length self.old.octets }
        ensures octets { self.new.octets ≡ self.old.octets }
        ensures start { self.new.start ≡ ahead (length self.old.octets) self.old.start n }
        ensures round { ringed self.new ≡ round (ringed self.old) n }
    {
        self.start = onward(self.octets.len(), self.start, n);
    }

    /// Fills `out` with the octets from `at` on.
    pub(crate) fn read(&self, at: usize, out: &mut [u8])
        requires { at + length out.old ≤ length self.now.octets }
        ensures { out.new ≡ take (length out.old) (drop at (ringed self.now)) }
    {
        let from = onward(self.octets.len(), self.start, at);
        let n = out.len();
        let to_end = self.octets.len() - from;
        if n <= to_end {
            out.copy_from_slice(&self.octets[from..from + n]);
        } else {
            out[..to_end].copy_from_slice(&self.octets[from..]);
            out[to_end..].copy_from_slice(&self.octets[..n - to_end]);
        }
    }

    /// Writes the octets from `at` on.
    pub(crate) fn write(&mut self, at: usize, octets: &[u8])
        requires { at + length octets.now ≤ length self.old.octets }
        ensures start { self.new.start ≡ self.old.start }
        ensures size { length self.new.octets ≡ length self.old.octets }
        ensures round { ringed self.new ≡ take at (ringed self.old) ++ (octets.now ++ drop (at + length octets.now) (ringed self.old)) }
    {
        let from = onward(self.octets.len(), self.start, at);
        write_round(self.octets, from, octets);
    }
}
