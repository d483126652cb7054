ghost use Rattle.std.specs.Prelude.{◌≡◌};
ghost use Rattle.timeline.specs.Insert.{insert_code};

/// Why a command could not be made pending, with the code by which a report names it.
#[derive(Clone, Copy)]
pub enum InsertError {
    /// Its tag is not later than the clock.
    TagNotLater = 21,
    /// As many commands are pending as there are slots.
    NoFreeSlot = 22,
    /// Every serial has been given.
    SerialsUsedUp = 23,
}

impl InsertError {
    /// The code by which a report names this failure.
    pub fn code(self) -> u16
        ensures { result ≡ insert_code self }
    {
        self as u16
    }
}
