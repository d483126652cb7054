//! Which subschedules and application processes are enabled: two bit maps.

#![tactic(auto)]

ghost use Rattle.std.specs.Prelude.{◌≡◌, false, ◌&&◌};
ghost use Rattle.packet.specs.Octets.{words};
ghost use Rattle.status.specs.Switches.{switched};
ghost use Rattle.status.specs.Status.{subschedules_on, apids_on};

pub mod switches;

use crate::switches::Switches;

/// Which subschedules and which application processes of a schedule are enabled.
// Bit maps of 512 and 256 octets are a rule of the project: the service has a fixed memory.
#[derive(Clone, Copy)]
pub struct Status {
    pub subschedules: Switches<512>,
    pub apids: Switches<256>,
}

impl Status {
    /// A status in which every subschedule and every application process is disabled.
    pub fn new() -> Status
        ensures subschedules { subschedules_on result ≡ (λ _. false) }
        ensures apids { apids_on result ≡ (λ _. false) }
    {
        Status {
            subschedules: Switches::of([0u8; 512]),
            apids: Switches::of([0u8; 256]),
        }
    }

    /// Whether a command of this subschedule for this application process is enabled.
    pub fn enables(&self, subschedule: u16, apid: u16) -> bool
        ensures { result ≡ (subschedules_on self.now subschedule && apids_on self.now apid) }
    {
        self.subschedules.is_on(subschedule) && self.apids.is_on(apid)
    }

    /// Enables or disables the subschedules and the application processes named, each as
    /// `Switches::switch` does.
    pub fn switch(&mut self, subschedules: &[u8], apids: &[u8], on: bool)
        ensures subschedules { subschedules_on self.new ≡ switched 4096 (words subschedules.now) on (subschedules_on self.old) }
        ensures apids { apids_on self.new ≡ switched 2048 (words apids.now) on (apids_on self.old) }
    {
        self.subschedules.switch(subschedules, on);
        self.apids.switch(apids, on);
    }
}
