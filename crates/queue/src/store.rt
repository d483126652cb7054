ghost use Rattle.std.specs.Prelude.{◌≡◌, ◌≤◌, true, length, take};
ghost use Rattle.std.specs.List.{list_all};
ghost use Rattle.queue.specs.Ring.{ringed, encode, waits};
ghost use Rattle.queue.specs.Rules.{carried};

use crate::ring::Ring;

/// Packets waiting in octets of the caller, two octets of length before each.
///
/// The octets are a ring, so an offer and a take copy the packet's own octets and move no others.
// It has no `Model`: the law of a destination would then have to hold of every view of one.
#[derive(Drop)]
pub struct Queue<'a> {
    pub(crate) ring: Ring<'a>,
    pub(crate) used: usize,
    ghost within: { used ≤ length ring.octets },
    // the used octets are the waiting packets and nothing else
    ghost exact: { encode (waits (ringed ring) used) ≡ take used (ringed ring) },
    ghost fine: { list_all (carried (length ring.octets)) (waits (ringed ring) used) ≡ true },
}
