//! Numbers in text: octets as hexadecimal digits, and decimal numbers.

#![tactic(auto)]

pub mod hex;
pub mod number;
