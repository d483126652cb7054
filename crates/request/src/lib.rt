//! Requests: the table of what is accepted, the decoding of a telecommand, and
//! the rejection that a wrong one earns.

#![tactic(auto)]

pub mod read;
pub mod rejection;
pub mod request;
pub mod table;
