//! A whole run of calls on a new service, and what is promised of it.

#![tactic(auto)]

pub mod call;
pub mod session;
