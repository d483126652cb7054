//! The table of pending commands, in slots that the caller lends.

#![tactic(auto)]

pub mod covers;
pub mod listing;
pub mod moment;
pub mod pending;
pub mod slots;
