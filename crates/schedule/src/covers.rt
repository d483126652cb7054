ghost use Rattle.std.specs.Prelude.{◌≡◌};
ghost use Rattle.schedule.specs.Covers.{among, covers};

use crate::pending::Pending;
use request::request::Cancel;

// Whether the count is one of the `number` from `first` on, 0 following 16383.
fn is_among(first: u16, number: u16, count: u16) -> bool
    ensures { result ≡ among first number count }
{
    (u32::from(count) + 16384).saturating_sub(u32::from(first)) % 16384 < u32::from(number)
}

/// Whether a cancel ends a pending command.
pub fn covers(cancel: &Cancel, pending: &Pending) -> bool
    ensures { result ≡ covers cancel.now pending.now }
{
    pending.subschedule == cancel.subschedule
        && pending.apid() == cancel.apid
        && cancel.tag <= pending.tag
        && is_among(cancel.first_count, cancel.number, pending.sequence_count())
}
