//! The queue, the first kind of destination: packets wait in a ring of the caller's octets.

#![tactic(auto)]

ghost use Rattle.std.specs.Prelude.{◌≡◌, ℕ, ◌+◌, ◌^◌, ◌<◌, ◌≤◌, true, List, [], length, nat_le, slice_index_or};
ghost use Rattle.queue.specs.Keeps.{queue_laws};
ghost use Rattle.queue.specs.Ring.{ringed, put_at};
ghost use Rattle.queue.specs.Queue.{waits_in, carried_by, space_in, cause_of};
ghost use Rattle.queue.specs.Rules.{carried, why};

mod ring;
mod store;

use destination::{Destination, LONGEST, Refused, check_length};
use ring::Ring;
pub use store::Queue;

/// Why a packet is refused.
enum Cause {
    /// It does not fit beside those that wait.
    NoSpace = 1,
    /// It would not fit an empty queue.
    TooLarge = 2,
}

impl<'a> Queue<'a> {
    /// A queue in these octets, with nothing waiting.
    pub fn new(memory: &'a mut [u8]) -> Queue<'a>
        ensures empty { waits_in result ≡ [] }
        ensures carries { (p : List ℕ) → carried_by result p ≡ carried (length memory.old) p }
        ensures space { (p : List ℕ) → space_in result p ≡ nat_le (2 + length p) (length memory.old) }
        ensures cause { (p : List ℕ) → cause_of result p ≡ why (length memory.old) p }
    {
        Queue {
            ring: Ring::new(memory),
            used: 0,
        }
    }

    /// Lays a packet down behind the others.
    fn push(&mut self, packet: &[u8])
        requires carried { carried_by self.old packet.now ≡ true }
        requires fits { self.old.used + (2 + length packet.now) ≤ length self.old.ring.octets }
        requires short { length self.old.ring.octets < 2 ^ 64 }
        ensures octets { ringed self.new.ring ≡ put_at (ringed self.old.ring) self.old.used packet.now }
        ensures used { self.new.used ≡ self.old.used + (2 + length packet.now) }
        ensures start { self.new.ring.start ≡ self.old.ring.start }
        ensures size { length self.new.ring.octets ≡ length self.old.ring.octets }
    {
        let n = packet.len();
        let header = (n as u16).to_be_bytes();
        self.ring.write(self.used, &header);
        self.ring.write(self.used + 2, packet);
        self.used += 2 + n;
    }

    /// The length of the oldest packet.
    fn first_len(&self) -> usize
        requires { 0 < self.now.used }
        ensures oldest { result ≡ length (slice_index_or (waits_in self.now) 0 []) }
        ensures small { result ≤ 228 }
        ensures fits { 2 + result ≤ self.now.used }
    {
        let mut header = [0; 2];
        self.ring.read(0, &mut header);
        u16::from_be_bytes(header) as usize
    }
}

impl<'a> Destination for Queue<'a> {
    const KIND: u16 = 1;

    ghost number = { 1 };

    ghost waiting = { waits_in };

    ghost carries = { carried_by };

    ghost roomy = { space_in };

    ghost cause = { cause_of };

    ghost laws = { queue_laws };

    fn kind_number() -> u16
        ensures { result ≡ 1 }
    {
        Self::KIND
    }

    fn offer(&mut self, packet: &[u8]) -> Result<(), Refused> {
        check_length(packet)?;
        let n = packet.len();
        let size = self.ring.len();
        if 2 + n > size {
            return Err(Refused::Never(Cause::TooLarge as u16));
        }
        if 2 + n > size - self.used {
            return Err(Refused::NotNow(Cause::NoSpace as u16));
        }
        self.push(packet);
        Ok(())
    }

    fn take(&mut self, area: &mut [u8]) -> usize {
        if area.len() < LONGEST || self.used == 0 {
            return 0;
        }
        let n = self.first_len();
        self.ring.read(2, &mut area[..n]);
        let freed = 2 + n;
        self.ring.advance(freed);
        self.used -= freed;
        n
    }
}
