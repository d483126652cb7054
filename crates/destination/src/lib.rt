//! What receives released commands: its meaning, its law, and its two calls.

#![tactic(auto)]

ghost use Rattle.std.specs.Prelude.{◌≡◌, Bool, true, false, List, [], ℕ, ◌<◌, length};
ghost use Rattle.destination.specs.Destination.{Laws, sized, offered, waiting_after, given, left, laid};

/// The shortest packet that a destination may carry.
pub const SHORTEST: usize = 12;

/// The longest, and the least area to take a packet into.
pub const LONGEST: usize = 228;

/// Why a packet that was offered is refused; nothing has changed. The cause is a number, so that
/// makers may have their own.
#[derive(Clone, Copy, PartialEq, Eq, Debug)]
pub enum Refused {
    /// There is no space for it now.
    NotNow(u16),
    /// It is never carried.
    Never(u16),
}

/// A cause that all kinds share.
enum Cause {
    /// Its length is out of bounds.
    BadLength = 5,
}

/// Refuses a packet whose length no destination carries.
pub fn check_length(packet: &[u8]) -> Result<(), Refused>
    ensures { result ≡ offered (sized packet.now) true 5 }
{
    if (SHORTEST..=LONGEST).contains(&packet.len()) {
        Ok(())
    } else {
        Err(Refused::Never(Cause::BadLength as u16))
    }
}

/// A destination: packets wait in it, the oldest first.
pub trait Destination {
    /// The number of this kind of destination.
    const KIND: u16;

    // a `ghost KIND` beside the constant was tried: at a type with a lifetime, as the queue, the
    // check "cannot give this method the clauses of its trait yet"
    ghost number: { ℕ };

    ghost waiting: { Self → List (List ℕ) };

    // whether it carries a packet, which never changes
    ghost carries: { Self → List ℕ → Bool };

    // whether it has space for a packet now
    ghost roomy: { Self → List ℕ → Bool };

    // why it refuses a packet
    ghost cause: { Self → List ℕ → ℕ };

    ghost laws: { Laws waiting carries roomy cause };

    /// The number of this kind, for code that knows only that it has a destination.
    fn kind_number() -> u16
        ensures { result ≡ number };

    /// Offers a packet. Where it is taken, it waits behind the others.
    fn offer(&mut self, packet: &[u8]) -> Result<(), Refused>
        ensures answer { result ≡ offered (carries self.old packet.now) (roomy self.old packet.now) (cause self.old packet.now) }
        ensures waiting { waiting self.new ≡ waiting_after (carries self.old packet.now) (roomy self.old packet.now) (waiting self.old) packet.now }
        ensures fixed { (p : List ℕ) → carries self.new p ≡ carries self.old p }
        ensures never { carries self.old packet.now ≡ false → self.new ≡ self.old }
        ensures not_now { roomy self.old packet.now ≡ false → self.new ≡ self.old };

    /// Copies the oldest packet to the start of the area and lets it go; answers its length. With
    /// fewer than 228 octets in the area, or nothing waiting, answers 0 and changes nothing.
    // a number and no `Option`: the rules fix what is answered
    fn take(&mut self, area: &mut [u8]) -> usize
        ensures answer { result ≡ length (given (length area.old) (waiting self.old)) }
        ensures area { area.new ≡ laid (given (length area.old) (waiting self.old)) area.old }
        ensures waiting { waiting self.new ≡ left (length area.old) (waiting self.old) }
        ensures fixed { (p : List ℕ) → carries self.new p ≡ carries self.old p }
        ensures short { length area.old < 228 → self.new ≡ self.old }
        ensures empty { waiting self.old ≡ [] → self.new ≡ self.old };
}
