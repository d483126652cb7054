ghost use Rattle.std.specs.Prelude.{◌≡◌, ◌+◌, length};
ghost use Rattle.schedule.specs.Pending.{pended};
ghost use Rattle.schedule.specs.Covers.{covers};
ghost use Rattle.schedule.specs.Slots.{each};
ghost use Rattle.request.specs.Request.{names_in};
ghost use Rattle.timeline.specs.Plan.{plan_of, fresh, switched_by, covered, cancelled, wiped};
ghost use Rattle.timeline.specs.Insert.{insert_answer, insert_after, judged_by, is_late, is_full, used_up, if_ok, added};

use crate::end_all::end_all;
use crate::insert_error::InsertError;
use request::request::{Cancel, Names};
use schedule::covers::covers;
use schedule::pending::{Insert, Pending};
use schedule::slots::{first_free, put};
use status::Status;

/// The most slots that a timeline uses.
pub const MOST_SLOTS: usize = 256;

/// Status, serials, and the slots with the pending commands.
#[derive(Drop)]
pub struct Timeline<'s> {
    status: Status,
    // how many serials were given
    serials: u32,
    slots: &'s mut [Option<Pending>],
}

// Puts a command into the first free slot under the serial after the given ones.
//
// In a method it got no proof: slots in a field are not lent a second time.
fn insert_into(
    slots: &mut [Option<Pending>],
    serials: u32,
    clock: u64,
    insert: Insert,
) -> Result<u32, InsertError>
    ensures answer { result ≡ judged_by (is_late clock insert.entry.tag) (is_full slots.old) (used_up serials) (serials + 1) }
    ensures after { slots.new ≡ if_ok result (added slots.old (pended (serials + 1) insert.entry.subschedule insert.entry.tag insert.entry.command.now)) slots.old }
{
    if insert.tag <= clock {
        return Err(InsertError::TagNotLater);
    }
    let free = first_free(slots).ok_or(InsertError::NoFreeSlot)?;
    let serial = serials.checked_add(1).ok_or(InsertError::SerialsUsedUp)?;
    put(slots, free, Pending::new(serial, insert));
    Ok(serial)
}

impl<'s> Timeline<'s> {
    /// A new timeline, everything disabled, no serial given. It empties and uses the caller's
    /// slots, the first 256 where there are more; any others stay as they are.
    pub fn new(slots: &'s mut [Option<Pending>]) -> Timeline<'s>
        ensures { plan_of result ≡ fresh (length slots.old) }
    {
        let used = slots.len().min(MOST_SLOTS);
        let front = &mut slots[..used];
        front.fill(None);
        Timeline {
            status: Status::new(),
            serials: 0,
            slots: front,
        }
    }
}

impl Timeline<'_> {
    /// Enables or disables every number named.
    pub fn switch(&mut self, names: Names, on: bool)
        ensures { plan_of self.new ≡ switched_by (plan_of self.old) (names_in names.entry) on }
    {
        self.status.switch(names.subschedules, names.apids, on);
    }

    /// Makes a command pending under the next serial, which is the answer.
    pub fn insert(&mut self, clock: u64, insert: Insert) -> Result<u32, InsertError>
        ensures answer { result ≡ insert_answer clock (plan_of self.old) insert.entry.tag }
        ensures after { plan_of self.new ≡ insert_after clock (plan_of self.old) insert.entry.subschedule insert.entry.tag insert.entry.command.now }
    {
        let serial = insert_into(self.slots, self.serials, clock, insert)?;
        self.serials = serial;
        Ok(serial)
    }

    /// Ends every pending command that the cancel covers, and answers how many they were.
    pub fn cancel(&mut self, cancel: Cancel) -> usize
        ensures answer { result ≡ covered (covers cancel) (plan_of self.old) }
        ensures after { plan_of self.new ≡ cancelled (plan_of self.old) cancel }
    {
        end_all(self.slots, |pending| covers(&cancel, pending))
    }

    /// Ends every pending command and disables everything; answers how many commands they were.
    pub fn reset(&mut self) -> usize
        ensures answer { result ≡ covered each (plan_of self.old) }
        ensures after { plan_of self.new ≡ wiped (plan_of self.old) }
    {
        self.status = Status::new();
        end_all(self.slots, |_| true)
    }

    /// What is enabled.
    pub fn status(&self) -> &Status
        ensures { result.now ≡ self.now.status }
    {
        &self.status
    }

    /// The slots.
    pub fn slots(&self) -> &[Option<Pending>]
        ensures { result.now ≡ self.now.slots.now }
    {
        self.slots
    }
}
